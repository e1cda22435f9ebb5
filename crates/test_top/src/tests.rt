//! Whole runs over files and sinks in memory: what no clause says, that memory is there.

use mbp_top::run;
use plan_io::{MemShelf, MemSink};
use run_replay::{ChangeMonitor, Monitor, RecordWorld, StepMonitor, World};
use sexpr_text::MAX_BYTES;
use std::alloc::Global;
use std::test::Fail;

const COIN: &str = "(define (domain coin)
  (:predicates (up))
  (:action flip :effect (oneof (up) (and))))
";

const UP: &str = "(define (problem c) (:domain coin) (:init) (:goal (up)))\n";

const DOWN: &str = "(define (problem c) (:domain coin) (:init (up)) (:goal (not (up))))\n";

/// Eight fluents, each of them lit by its own action.
const EIGHT: &str = "(define (domain eight)
  (:predicates (a) (b) (c) (d) (e) (f) (g) (h))
  (:action la :effect (a)) (:action lb :effect (b)) (:action lc :effect (c))
  (:action ld :effect (d)) (:action le :effect (e)) (:action lf :effect (f))
  (:action lg :effect (g)) (:action lh :effect (h)))
";

const ONE_DARK: &str = "(define (problem o) (:domain eight)
  (:init (a) (b) (c) (d) (e) (f) (g))
  (:goal (and (a) (b) (c) (d) (e) (f) (g) (h))))
";

const ALL_LIT: &str = "(define (problem o) (:domain eight) (:init (a)) (:goal (a)))\n";

const PLAN: &str = "(plan table weak\n  (rule ((not (up))) (flip))\n)\n";

const CYCLIC_PLAN: &str = "(plan table cyclic\n  (rule ((not (up))) (flip))\n)\n";

const EIGHT_PLAN: &str = "(plan table weak
  (rule ((not (a)) (b) (c) (d) (e) (f) (g) (h)) (la))
  (rule ((a) (not (b)) (c) (d) (e) (f) (g) (h)) (lb))
  (rule ((a) (b) (not (c)) (d) (e) (f) (g) (h)) (lc))
  (rule ((a) (b) (c) (not (d)) (e) (f) (g) (h)) (ld))
  (rule ((a) (b) (c) (d) (not (e)) (f) (g) (h)) (le))
  (rule ((a) (b) (c) (d) (e) (not (f)) (g) (h)) (lf))
  (rule ((a) (b) (c) (d) (e) (f) (not (g)) (h)) (lg))
  (rule ((a) (b) (c) (d) (e) (f) (g) (not (h))) (lh))
)
";

const LISTING: &str = "fluents 1\n(up)\nactions 1\n(flip) 2\nuncertain 0\n";

/// 11 objects for 6 parameters: more instances than may be.
const MANY: &str = "(define (domain many) (:predicates (p))
  (:action x :parameters (?a ?b ?c ?d ?e ?f) :effect (p)))
";

const ELEVEN: &str = "(define (problem m) (:domain many)
  (:objects a b c d e f g h i j k) (:init) (:goal (p)))
";

/// A coin that is to come up: a goal in computation tree logic alone.
const KEEP: &str = "(define (problem k) (:domain coin) (:init)
  (:ctl-goal (af (up))))
";

/// Both goals.
const BOTH: &str = "(define (problem b) (:domain coin) (:init (up)) (:goal (up))
  (:ctl-goal (and (up) (ax (or (up) (not (up)))))))
";

/// It flips until the coin is up, and then again and again.
const FLIPS: &str = "(plan automaton 1 (rule 1 () (flip) 1))";

/// Nine fluents, which one action lights.
const NINE: &str = "(define (domain nine)
  (:predicates (a) (b) (c) (d) (e) (f) (g) (h) (i))
  (:action all :effect (and (a) (b) (c) (d) (e) (f) (g) (h) (i))))
";

const LIT: &str = "(define (problem n) (:domain nine) (:init) (:goal (a)))\n";

/// The light comes on, and then stays on.
const LIGHT: &str = "(define (problem l) (:domain nine) (:init)
  (:ctl-goal (af (and (a) (ag (a))))))
";

const LIGHT_PLAN: &str = "(plan automaton 2
  (rule 1 ((not (a))) (all) 1)
  (rule 1 ((a)) (all) 2)
  (rule 2 ((a)) (all) 2)
)
";

const NINE_PLAN: &str = "(plan table strong\n  (rule ((not (a))) (all))\n)\n";

/// Two fluents that are never both true: so one action loses an outcome where one of them is true,
/// and the other can be executed nowhere.
const TWO: &str = "(define (domain two)
  (:predicates (p) (q))
  (:invariant (not (and (p) (q))))
  (:action a :effect (oneof (p) (q)))
  (:action b :precondition (q) :effect (p)))
";

const NEITHER: &str = "(define (problem t) (:domain two) (:init) (:goal (p)))\n";

/// No state at all.
const TOGETHER: &str = "(define (problem t) (:domain two) (:init (p) (q)) (:goal (p))
  (:ctl-goal (eg (p))))
";

const TWO_PLAN: &str = "(plan table weak\n  (rule ((not (p)) (not (q))) (a))\n)\n";

const NO_STATE: &str = "together:1:1: 23 EmptyInit\n";

/// The coin stays down once, and then comes up.
const RUN: &str = "step 1 (flip) outcome 1\nstep 2 (flip) outcome 0\nend terminal
tally steps 2\ntally changes 1\n";

const NO_STEP: &str = "end terminal\ntally steps 0\ntally changes 0\n";

const LEFT_OUT: &str = "(define (domain d) (:requirements) (:functions (f)))\n";

const CORRIDOR: &str = "drill corridor 3\nfluents 3\nactions 2
weak rules 2 yes\nstrong no plan\ncyclic rules 2 yes\n";

const TYRES: &str = "drill tyres 3\nfluents 5\nactions 4
weak rules 4 yes\nstrong rules 4 yes bound 4\ncyclic rules 4 yes\n";

const NO_COMMAND: &str = "mbp: the words are none of the command forms\n";

/// The text, and spaces up to so many bytes.
fn padded(alloc: Global, text: &str, length: usize) -> Result<Vec<u8>, Fail> {
    let mut bytes = Vec::from_slice(alloc, text.as_bytes())?;
    bytes.resize(length, b' ')?;
    Ok(bytes)
}

/// A shelf with two domains and their problems, and files of the longest length and one byte more.
fn shelf(alloc: Global) -> Result<MemShelf, Fail> {
    let mut shelf = MemShelf::new(alloc);
    shelf.add("coin-d", COIN.as_bytes())?;
    shelf.add("up", UP.as_bytes())?;
    shelf.add("down", DOWN.as_bytes())?;
    shelf.add("eight-d", EIGHT.as_bytes())?;
    shelf.add("one-dark", ONE_DARK.as_bytes())?;
    shelf.add("many-d", MANY.as_bytes())?;
    shelf.add("many", ELEVEN.as_bytes())?;
    shelf.add("nine-d", NINE.as_bytes())?;
    shelf.add("nine", LIT.as_bytes())?;
    shelf.add("left-out", LEFT_OUT.as_bytes())?;
    shelf.add("plan", PLAN.as_bytes())?;
    shelf.add("no-rules", b"(plan table weak)")?;
    shelf.add("one-context", b"(plan automaton 1)")?;
    shelf.add("flips", FLIPS.as_bytes())?;
    shelf.add("keep", KEEP.as_bytes())?;
    shelf.add("light", LIGHT.as_bytes())?;
    shelf.add("light-plan", LIGHT_PLAN.as_bytes())?;
    shelf.add("both", BOTH.as_bytes())?;
    shelf.add("run", b"(record 0 1 0 1)")?;
    shelf.add("stray", b"(record 0 1 2)")?;
    shelf.add("far", b"(record 1)")?;
    shelf.add("all-lit", ALL_LIT.as_bytes())?;
    shelf.add("two-d", TWO.as_bytes())?;
    shelf.add("neither", NEITHER.as_bytes())?;
    shelf.add("together", TOGETHER.as_bytes())?;
    shelf.add("always-a", b"(plan table weak (rule () (a)))")?;
    shelf.add("out", b"(record 0 1 0)")?;
    shelf.add("longest-d", &padded(alloc, COIN, MAX_BYTES)?)?;
    shelf.add("longest-up", &padded(alloc, UP, MAX_BYTES)?)?;
    shelf.add("too-long", &padded(alloc, UP, MAX_BYTES + 1)?)?;
    Ok(shelf)
}

/// The words of a command, which are separated by one space.
fn split(alloc: Global, line: &str) -> Result<Vec<String>, Fail> {
    let mut words = Vec::new(alloc);
    for word in line.split(' ') {
        if !word.is_empty() {
            words.push(String::from_str(alloc, word)?)?;
        }
    }
    Ok(words)
}

/// Does what the words say, with the program's own world and monitors.
fn run_line(
    alloc: Global,
    line: &str,
    shelf: &mut MemShelf,
    out: &mut MemSink,
    err: &mut MemSink,
) -> Result<u8, Fail> {
    let words = split(alloc, line)?;
    let world: Box<dyn World> = Box::new(alloc, RecordWorld::new(alloc))?;
    let mut monitors: Vec<Box<dyn Monitor>> = Vec::new(alloc);
    monitors.push(Box::new(alloc, StepMonitor::new())?)?;
    monitors.push(Box::new(alloc, ChangeMonitor::new())?)?;
    Ok(run(alloc, &words, shelf, out, err, world, monitors))
}

/// Whether the words are answered by this status and these texts, on a shelf of their own.
fn is_answered(
    alloc: Global,
    line: &str,
    status: u8,
    text: &str,
    errors: &str,
) -> Result<bool, Fail> {
    let mut shelf = shelf(alloc)?;
    let mut out = MemSink::new(alloc, 8, 1000)?;
    let mut err = MemSink::new(alloc, 8, 1000)?;
    let got = run_line(alloc, line, &mut shelf, &mut out, &mut err)?;
    Ok(got == status && out.bytes() == text.as_bytes() && err.bytes() == errors.as_bytes())
}

// The commands stand in a test for each kind, since the check of one long table outgrows its memory.
#[test]
fn each_answer_goes_where_it_belongs(rt: HostRuntime) -> Result<(), Fail> {
    let wanted = [
        ("plan weak coin-d up", 0, PLAN, ""),
        ("plan weak eight-d one-dark", 0, EIGHT_PLAN, ""),
        ("plan weak longest-d longest-up", 0, PLAN, ""),
        ("plan weak coin-d down", 1, "no plan\n", ""),
        ("", 2, "", NO_COMMAND),
        ("plan", 2, "", NO_COMMAND),
        ("plan Weak coin-d up", 2, "", NO_COMMAND),
        ("plan strong coin-d up", 1, "no plan\n", ""),
        (
            "plan strong eight-d all-lit",
            0,
            "(plan table strong\n)\n",
            "",
        ),
        ("plan strong nine-d nine", 0, NINE_PLAN, ""),
        ("plan cyclic coin-d up", 0, CYCLIC_PLAN, ""),
        ("plan cyclic coin-d down", 1, "no plan\n", ""),
        ("plan cyclic coin-d up --nodes 1", 5, "", "full 1\n"),
        ("plan weak coin-d up --nodes", 2, "", NO_COMMAND),
        ("plan weak coin-d up --nodes 0", 2, "", NO_COMMAND),
        ("plan weak coin-d up --nodes 02", 2, "", NO_COMMAND),
        ("plan weak coin-d up --nodes 16777217", 2, "", NO_COMMAND),
        ("plan weak coin-d up --nodes 1", 5, "", "full 1\n"),
        ("plan weak coin-d up --nodes 2", 0, PLAN, ""),
        ("plan weak too-long up", 4, "", "limit file\n"),
        ("plan weak coin-d too-long", 4, "", "limit file\n"),
        ("plan weak nowhere up", 6, "", "read fault nowhere\n"),
        ("plan weak coin-d nowhere", 6, "", "read fault nowhere\n"),
        ("plan weak up nowhere", 3, "", "up:1:1: 5 NoDefine\n"),
        ("plan weak coin-d coin-d", 3, "", "coin-d:1:1: 5 NoDefine\n"),
        ("ground coin-d down", 0, LISTING, ""),
        ("ground longest-d longest-up", 0, LISTING, ""),
        ("ground coin-d eight-d", 3, "", "eight-d:1:1: 5 NoDefine\n"),
        ("ground many-d many", 4, "", "limit instances\n"),
    ];
    for (line, status, text, errors) in wanted {
        let is_so = is_answered(rt.alloc(), line, status, text, errors)?;
        assert!(rt; is_so, "{line}");
    }
    Ok(())
}

#[test]
fn each_answer_on_plans_goes_where_it_belongs(rt: HostRuntime) -> Result<(), Fail> {
    let wanted = [
        ("plan ctl nine-d light", 0, LIGHT_PLAN, ""),
        ("check ctl nine-d light light-plan", 0, "yes\n", ""),
        ("plan ctl coin-d keep", 1, "no plan\n", ""),
        ("plan ctl coin-d both", 3, "", "both:2:14: 18 NotChain\n"),
        ("plan ctl nine-d light --nodes 1", 5, "", "full 1\n"),
        ("check ctl coin-d both flips", 0, "yes\n", ""),
        ("check ctl coin-d keep flips", 1, "no formula\n", ""),
        ("check ctl coin-d keep one-context", 1, "no stuck\n", ""),
        ("check weak coin-d both no-rules", 0, "yes\n", ""),
        (
            "check ctl coin-d up flips",
            3,
            "",
            "up:1:1: 17 WrongGoalKind\n",
        ),
        (
            "check weak coin-d keep plan",
            3,
            "",
            "keep:1:1: 17 WrongGoalKind\n",
        ),
        (
            "plan weak coin-d keep",
            3,
            "",
            "keep:1:1: 17 WrongGoalKind\n",
        ),
        (
            "check ctl coin-d both no-rules",
            3,
            "",
            "no-rules:1:1: 22 WrongPlanKind\n",
        ),
        (
            "check weak coin-d both flips",
            3,
            "",
            "flips:1:1: 22 WrongPlanKind\n",
        ),
        ("check CTL coin-d both flips", 2, "", NO_COMMAND),
    ];
    for (line, status, text, errors) in wanted {
        let is_so = is_answered(rt.alloc(), line, status, text, errors)?;
        assert!(rt; is_so, "{line}");
    }
    Ok(())
}

#[test]
fn each_answer_on_runs_goes_where_it_belongs(rt: HostRuntime) -> Result<(), Fail> {
    let wanted = [
        ("replay coin-d up plan run", 0, RUN, ""),
        ("replay coin-d up one-context run", 0, NO_STEP, ""),
        ("replay coin-d up plan", 2, "", NO_COMMAND),
        (
            "replay coin-d up plan far",
            3,
            "",
            "far:1:9: 21 BadNumber\n",
        ),
        (
            "replay coin-d up plan nowhere",
            6,
            "",
            "read fault nowhere\n",
        ),
        (
            "replay coin-d up plan stray",
            9,
            "",
            "stray outcome step 2 word 2 outcomes 2\n",
        ),
        ("drill corridor 3", 0, CORRIDOR, ""),
        ("drill tyres 3", 0, TYRES, ""),
        ("drill corridor 1", 2, "", NO_COMMAND),
        ("drill corridor 121", 2, "", NO_COMMAND),
        ("drill tyres 02", 2, "", NO_COMMAND),
        ("drill Tyres 2", 2, "", NO_COMMAND),
        (
            "ground left-out nowhere",
            3,
            "",
            "left-out:1:36: 13 LeftOut :functions\n",
        ),
    ];
    for (line, status, text, errors) in wanted {
        let is_so = is_answered(rt.alloc(), line, status, text, errors)?;
        assert!(rt; is_so, "{line}");
    }
    Ok(())
}

#[test]
fn each_answer_on_states_goes_where_it_belongs(rt: HostRuntime) -> Result<(), Fail> {
    let wanted = [
        ("plan weak two-d neither", 0, TWO_PLAN, ""),
        ("plan strong two-d neither", 1, "no plan\n", ""),
        ("plan cyclic two-d neither", 1, "no plan\n", ""),
        ("plan weak two-d together", 3, "", NO_STATE),
        (
            "plan ctl two-d together",
            3,
            "",
            "together:2:14: 18 NotChain\n",
        ),
        ("check weak two-d together always-a", 3, "", NO_STATE),
        (
            "check weak two-d together one-context",
            3,
            "",
            "one-context:1:1: 22 WrongPlanKind\n",
        ),
        ("replay two-d together always-a far", 3, "", NO_STATE),
        (
            "replay two-d neither always-a out",
            9,
            "",
            "stray outcome step 2 word 0 outcomes 2\n",
        ),
    ];
    for (line, status, text, errors) in wanted {
        let is_so = is_answered(rt.alloc(), line, status, text, errors)?;
        assert!(rt; is_so, "{line}");
    }
    Ok(())
}

#[test]
fn faults_stop_the_work_and_the_text(rt: HostRuntime) -> Result<(), Fail> {
    // The words, the fetch and the puts of `out` and `err` that fail (0: none), the status, and
    // what is written. No file is fetched twice, so no fetch has the number 3.
    let wanted = [
        ("plan weak coin-d up", 1, 0, 0, 6, "", "read fault coin-d\n"),
        ("plan weak coin-d up", 2, 0, 0, 6, "", "read fault up\n"),
        ("plan weak coin-d up", 3, 0, 0, 0, PLAN, ""),
        (
            "replay coin-d up plan run",
            4,
            0,
            0,
            6,
            "",
            "read fault run\n",
        ),
        (
            "plan weak coin-d up",
            0,
            2,
            0,
            7,
            "(plan ta",
            "write fault\n",
        ),
        ("plan weak coin-d up", 0, 1, 0, 7, "", "write fault\n"),
        ("plan weak coin-d up", 0, 2, 2, 7, "(plan ta", "write fa"),
        ("plan weak coin-d down", 0, 1, 1, 7, "", ""),
        ("plan", 0, 0, 3, 7, "", "mbp: the words a"),
        ("plan weak coin-d nowhere", 0, 0, 2, 7, "", "read fau"),
    ];
    for (line, fetch, out_put, err_put, status, text, errors) in wanted {
        let mut shelf = shelf(rt.alloc())?;
        let mut out = MemSink::new(rt.alloc(), 8, 100)?;
        let mut err = MemSink::new(rt.alloc(), 8, 100)?;
        shelf.fail_at(fetch)?;
        out.fail_at(out_put)?;
        err.fail_at(err_put)?;
        let got = run_line(rt.alloc(), line, &mut shelf, &mut out, &mut err)?;
        assert_eq!(rt; got, status, "{line}");
        assert!(rt; out.bytes() == text.as_bytes(), "{line}");
        assert!(rt; err.bytes() == errors.as_bytes(), "{line}");
    }
    Ok(())
}
