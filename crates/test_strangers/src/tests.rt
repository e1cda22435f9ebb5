//! A stranger's objects in whole runs, over files and sinks in memory: what `replay` makes of them,
//! that no other command uses them, that each is dropped once whatever comes; and each fetch and
//! each put failing in turn. What is expected was worked out by hand.

ghost use Rattle.std.specs.Prelude.{◌≡◌, All, IfOk};

use crate::{ActionMonitor, ListingMonitor, Place, QueueWorld, ReverseWorld, WeightMonitor};
use mbp_top::run;
use plan_io::{MemShelf, MemSink};
use run_replay::{ChangeMonitor, Monitor, StepMonitor, World};
use std::alloc::{AllocError, Global};
use std::collections::VecDeque;
use std::fmt::Write;
use std::rc::Rc;
use std::test::Fail;
use task_core::ActionId;

const SWITCH: &str = "(define (domain sw)
  (:predicates (p))
  (:action on :effect (p))
  (:action off :effect (not (p))))
";

/// The switch comes on, and goes off later.
const BLINK: &str = "(define (problem s) (:domain sw) (:init)
  (:ctl-goal (af (and (p) (af (not (p)))))))
";

const BLINK_PLAN: &str = "(plan automaton 3
  (rule 1 ((not (p))) (on) 1)
  (rule 1 ((p)) (off) 2)
  (rule 2 ((p)) (off) 2)
  (rule 2 ((not (p))) (on) 3)
  (rule 3 () (on) 3)
)
";

const SLIP: &str = "(define (domain slip)
  (:predicates (at ?r) (next ?a ?b))
  (:action go :parameters (?a ?b)
    :precondition (and (at ?a) (next ?a ?b))
    :effect (oneof (and (not (at ?a)) (at ?b)) (and))))
";

const ACROSS: &str = "(define (problem s) (:domain slip)
  (:objects a b) (:init (at a) (next a b)) (:goal (at b)))
";

/// 11 objects for 6 parameters: more instances than may be.
const MANY: &str = "(define (domain many) (:predicates (p))
  (:action x :parameters (?a ?b ?c ?d ?e ?f) :effect (p)))
";

const ELEVEN: &str = "(define (problem m) (:domain many)
  (:objects a b c d e f g h i j k) (:init) (:goal (p)))
";

/// The switch goes on, off and on.
const RUN: &str = "step 1 (on) outcome 0\nstep 2 (off) outcome 0\nstep 3 (on) outcome 0\n\
    end record\ntally steps 3\ntally weight 55340232221128654845\n";

/// A shelf with three domains, a problem of each, plans and records.
fn shelf(alloc: Global) -> Result<MemShelf, Fail> {
    let mut shelf = MemShelf::new(alloc);
    for (name, text) in [
        ("sw-d", SWITCH),
        ("sw-p", BLINK),
        ("sw-plan", BLINK_PLAN),
        ("slip-d", SLIP),
        ("slip-p", ACROSS),
        ("go", "(plan table weak (rule () (go a b)))"),
        ("arrive", "(plan table weak (rule ((at a)) (go a b)))"),
        ("many-d", MANY),
        ("many", ELEVEN),
        ("none", "(record 0)"),
        ("two", "(record 0 0 0)"),
        ("three", "(record 0 0 0 0)"),
        ("long", "(record 0 4294967295)"),
        ("stray", "(record 0 0 2 0)"),
        ("far", "(record 1)"),
    ] {
        shelf.add(name, text.as_bytes())?;
    }
    Ok(shelf)
}

/// The words of a command, which are separated by one space.
fn split(alloc: Global, line: &str) -> Result<Vec<String>, Fail> {
    let mut words = Vec::new(alloc);
    for word in line.split(' ') {
        words.push(String::from_str(alloc, word)?)?;
    }
    Ok(words)
}

/// The numbers of the fetch and of the puts of `out` and `err` that fail, counted from 1, each put
/// being of one byte; 0 for none.
#[derive(Clone, Copy)]
struct Faults {
    fetch: u64,
    out: u64,
    err: u64,
}

const NO_FAULT: Faults = Faults {
    fetch: 0,
    out: 0,
    err: 0,
};

/// What a command tells: the status, and what was written to both sinks, as `STATUS OUT|ERR`.
fn told(
    alloc: Global,
    line: &str,
    faults: Faults,
    world: Box<dyn World>,
    monitors: Vec<Box<dyn Monitor>>,
) -> Result<String, Fail>
    requires { All (λ monitor. (shown monitor).counted ≡ 0) monitors.items }
{
    let words = split(alloc, line)?;
    let mut shelf = failing_shelf(alloc, faults.fetch)?;
    let mut out = failing_sink(alloc, faults.out)?;
    let mut err = failing_sink(alloc, faults.err)?;
    let status = run(
        alloc, &words, &mut shelf, &mut out, &mut err, world, monitors,
    );
    as_told(alloc, status, out.bytes(), err.bytes())
}

/// The shelf, whose fetch of this number fails.
fn failing_shelf(alloc: Global, fetch: u64) -> Result<MemShelf, Fail> {
    let mut shelf = shelf(alloc)?;
    shelf.fail_at(fetch)?;
    Ok(shelf)
}

/// A sink that takes one byte a put, and whose put of this number fails.
fn failing_sink(alloc: Global, put: u64) -> Result<MemSink, Fail> {
    let mut sink = MemSink::new(alloc, 1, 1000)?;
    sink.fail_at(put)?;
    Ok(sink)
}

/// A status and what was written to both sinks, as `STATUS OUT|ERR`.
fn as_told(alloc: Global, status: u8, out: &[u8], err: &[u8]) -> Result<String, Fail> {
    let mut text = format!(in alloc; "{status} ")?;
    push_bytes(&mut text, out)?;
    text.push('|')?;
    push_bytes(&mut text, err)?;
    Ok(text)
}

/// Appends bytes, each as the character of its number.
fn push_bytes(text: &mut String, bytes: &[u8]) -> Result<(), AllocError> {
    for byte in bytes {
        text.push(char::from(*byte))?;
    }
    Ok(())
}

/// A place of an object to which nothing was done.
fn place(alloc: Global) -> Result<Rc<Place>, AllocError> {
    Ok(Rc::new(alloc, Place::new(alloc))?)
}

/// The world that keeps its words in reverse, with nothing to give, which shares this place.
fn world(alloc: Global, place: &Rc<Place>) -> Result<Box<dyn World>, AllocError> {
    let words = Vec::new(alloc);
    let place = place.clone()?;
    Ok(Box::new(alloc, ReverseWorld { words, place })?)
}

/// Who watches a run.
#[derive(Clone, Copy)]
enum Watchers {
    /// No monitor.
    Nobody,
    /// The two monitors of the program itself.
    Own,
    /// A monitor of steps, and the one whose steps weigh as much as a step may.
    Heavy,
}

/// The monitors, which have counted nothing.
fn monitors(alloc: Global, watchers: Watchers) -> Result<Vec<Box<dyn Monitor>>, AllocError>
    ensures { IfOk result (λ monitors.
        All (λ monitor. (shown monitor).counted ≡ 0) monitors.items) }
{
    match watchers {
        Watchers::Nobody => Ok(Vec::new(alloc)),
        Watchers::Own => own_monitors(alloc),
        Watchers::Heavy => heavy_monitors(alloc),
    }
}

/// The two monitors of the program itself.
fn own_monitors(alloc: Global) -> Result<Vec<Box<dyn Monitor>>, AllocError>
    ensures { IfOk result (λ monitors.
        All (λ monitor. (shown monitor).counted ≡ 0) monitors.items) }
{
    let mut monitors: Vec<Box<dyn Monitor>> = Vec::new(alloc);
    monitors.push(Box::new(alloc, StepMonitor::new())?)?;
    monitors.push(Box::new(alloc, ChangeMonitor::new())?)?;
    Ok(monitors)
}

/// A monitor of steps, and the one whose steps weigh as much as a step may.
fn heavy_monitors(alloc: Global) -> Result<Vec<Box<dyn Monitor>>, AllocError>
    ensures { IfOk result (λ monitors.
        All (λ monitor. (shown monitor).counted ≡ 0) monitors.items) }
{
    let mut monitors: Vec<Box<dyn Monitor>> = Vec::new(alloc);
    monitors.push(Box::new(alloc, StepMonitor::new())?)?;
    monitors.push(Box::new(alloc, WeightMonitor { sum: 0 })?)?;
    Ok(monitors)
}

/// What a command tells with the world that keeps its words in reverse.
fn told_to(alloc: Global, line: &str, faults: Faults, watchers: Watchers) -> Result<String, Fail> {
    let world = world(alloc, &place(alloc)?)?;
    told(alloc, line, faults, world, monitors(alloc, watchers)?)
}

/// What a command tells with a world that draws from a queue and a monitor of each of the two
/// actions of the switch.
fn told_of_actions(alloc: Global, line: &str) -> Result<String, Fail> {
    let numbers = VecDeque::new(alloc);
    let world: Box<dyn World> = Box::new(alloc, QueueWorld { numbers })?;
    let on = ActionMonitor {
        action: ActionId(0),
        count: 0,
    };
    let off = ActionMonitor {
        action: ActionId(1),
        count: 0,
    };
    let mut monitors: Vec<Box<dyn Monitor>> = Vec::new(alloc);
    monitors.push(Box::new(alloc, on)?)?;
    monitors.push(Box::new(alloc, off)?)?;
    told(alloc, line, NO_FAULT, world, monitors)
}

#[test]
fn the_steps_with_each_action(rt: HostRuntime) -> Result<(), Fail> {
    let text = "0 step 1 (on) outcome 0\nstep 2 (off) outcome 0\nstep 3 (on) outcome 0\n\
        end record\ntally uses 2\ntally uses 1\n|";
    let told = told_of_actions(rt.alloc(), "replay sw-d sw-p sw-plan three")?;
    assert_eq!(rt; told.as_str(), text);
    Ok(())
}

#[test]
fn what_a_replay_tells(rt: HostRuntime) -> Result<(), Fail> {
    for (watchers, line, text) in [
        (
            Watchers::Heavy,
            "replay sw-d sw-p sw-plan three",
            "0 step 1 (on) outcome 0\nstep 2 (off) outcome 0\nstep 3 (on) outcome 0\n\
                end record\ntally steps 3\ntally weight 55340232221128654845\n|",
        ),
        (
            Watchers::Nobody,
            "replay sw-d sw-p sw-plan three",
            "0 step 1 (on) outcome 0\nstep 2 (off) outcome 0\nstep 3 (on) outcome 0\n\
                end record\n|",
        ),
        (
            Watchers::Own,
            "replay sw-d sw-p sw-plan none",
            "0 end record\ntally steps 0\ntally changes 0\n|",
        ),
        (
            Watchers::Own,
            "replay sw-d sw-p sw-plan long",
            "3 |long:1:11: 21 BadNumber\n",
        ),
        (
            Watchers::Own,
            "replay slip-d slip-p go two",
            "9 |unexecutable step 2\n",
        ),
    ] {
        let told = told_to(rt.alloc(), line, NO_FAULT, watchers)?;
        assert_eq!(rt; told.as_str(), text, "{line}");
    }
    Ok(())
}

/// What a command tells with the world that keeps its words in reverse and the monitor that lists,
/// which share these places.
fn told_to_places(
    alloc: Global,
    line: &str,
    faults: Faults,
    of_world: &Rc<Place>,
    of_monitor: &Rc<Place>,
) -> Result<String, Fail> {
    let world = world(alloc, of_world)?;
    let place = of_monitor.clone()?;
    let mut monitors: Vec<Box<dyn Monitor>> = Vec::new(alloc);
    monitors.push(Box::new(alloc, ListingMonitor { place })?)?;
    told(alloc, line, faults, world, monitors)
}

/// What became of a world and a monitor that were handed in with a command: its status, how often
/// each of the two was called and dropped, and the steps that the monitor saw, as
/// `STATUS USES DROPS USES DROPS: STEPS`.
fn uses_of(alloc: Global, line: &str, faults: Faults) -> Result<String, Fail> {
    let of_world = place(alloc)?;
    let of_monitor = place(alloc)?;
    let told = told_to_places(alloc, line, faults, &of_world, &of_monitor)?;
    let status = told.split(' ').next().unwrap_or("");
    uses_text(alloc, status, &of_world, &of_monitor)
}

fn uses_text(
    alloc: Global,
    status: &str,
    of_world: &Place,
    of_monitor: &Place,
) -> Result<String, Fail> {
    let mut text = String::from_str(alloc, status)?;
    push_counts(&mut text, of_world)?;
    push_counts(&mut text, of_monitor)?;
    text.push(':')?;
    push_steps(&mut text, of_monitor)?;
    Ok(text)
}

/// Appends how often an object was called and dropped.
fn push_counts(text: &mut String, place: &Place) -> Result<(), Fail> {
    write!(text, " {} {}", place.uses.get(), place.drops.get())?;
    Ok(())
}

/// Appends the numbers of the steps that an object saw.
fn push_steps(text: &mut String, place: &Place) -> Result<(), Fail> {
    if let Ok(steps) = place.steps.try_borrow() {
        for step in steps.iter() {
            write!(text, " {step}")?;
        }
    }
    Ok(())
}

#[test]
fn who_uses_them_and_that_each_is_dropped_once(rt: HostRuntime) -> Result<(), Fail> {
    for (line, fetch, out, uses) in [
        // Loaded once and asked for a number four times; told of three steps, and asked for the
        // title and the tally.
        ("replay sw-d sw-p sw-plan three", 0, 0, "0 5 1 5 1: 1 2 3"),
        ("replay sw-d sw-p sw-plan", 0, 0, "2 0 1 0 1:"),
        ("replay sw-d sw-p sw-plan long", 0, 0, "3 0 1 0 1:"),
        ("replay many-d many sw-plan three", 0, 0, "4 0 1 0 1:"),
        ("replay sw-d sw-p sw-plan three", 4, 0, "6 0 1 0 1:"),
        ("replay sw-d sw-p sw-plan three", 0, 9, "7 5 1 5 1: 1 2 3"),
        // The second step can't be made.
        ("replay slip-d slip-p go two", 0, 0, "9 2 1 1 1: 1"),
        // It ends in the goal after one step.
        ("replay slip-d slip-p arrive two", 0, 0, "0 2 1 3 1: 1"),
        // The second number is of no outcome.
        ("replay sw-d sw-p sw-plan stray", 0, 0, "9 3 1 1 1: 1"),
        ("replay sw-d sw-p sw-plan far", 0, 0, "3 0 1 0 1:"),
        ("plan ctl sw-d sw-p", 0, 0, "0 0 1 0 1:"),
        ("plan strong slip-d slip-p", 0, 0, "1 0 1 0 1:"),
        ("ground slip-d slip-p", 0, 0, "0 0 1 0 1:"),
        ("check ctl sw-d sw-p sw-plan", 0, 0, "0 0 1 0 1:"),
    ] {
        let faults = Faults { fetch, out, err: 0 };
        let told = uses_of(rt.alloc(), line, faults)?;
        assert_eq!(rt; told.as_str(), uses, "{line}");
    }
    Ok(())
}

/// A command, the files that it fetches in their order, and the text that it writes.
struct Command {
    line: &'static str,
    files: &'static [&'static str],
    text: &'static str,
}

/// A command of each kind.
static COMMANDS: [Command; 4] = [
    Command {
        line: "plan ctl sw-d sw-p",
        files: &["sw-d", "sw-p"],
        text: BLINK_PLAN,
    },
    Command {
        line: "ground slip-d slip-p",
        files: &["slip-d", "slip-p"],
        text: "fluents 2\n(at a)\n(at b)\nactions 1\n(go a b) 2\nuncertain 0\n",
    },
    Command {
        line: "check ctl sw-d sw-p sw-plan",
        files: &["sw-d", "sw-p", "sw-plan"],
        text: "yes\n",
    },
    Command {
        line: "replay sw-d sw-p sw-plan three",
        files: &["sw-d", "sw-p", "sw-plan", "three"],
        text: RUN,
    },
];

/// Whether a command with these faults tells that.
fn tells(alloc: Global, line: &str, faults: Faults, due: &str) -> Result<bool, Fail> {
    Ok(told_to(alloc, line, faults, Watchers::Heavy)?.as_str() == due)
}

/// The number, counted from 1, of the call at a place that is counted from 0.
fn number(place: usize) -> u64 {
    (place as u64).wrapping_add(1)
}

/// Whether a command tells which file can't be read where each fetch fails in turn.
fn tells_each_fetch(alloc: Global, command: &Command) -> Result<bool, Fail> {
    let mut all = true;
    for (place, file) in command.files.iter().enumerate() {
        let faults = Faults {
            fetch: number(place),
            out: 0,
            err: 0,
        };
        let due = format!(in alloc; "6 |read fault {file}\n")?;
        all = tells(alloc, command.line, faults, &due)? && all;
    }
    Ok(all)
}

/// The first characters of a text, so many.
fn front(alloc: Global, text: &str, count: usize) -> Result<String, Fail> {
    let mut front = String::new(alloc);
    for letter in text.chars().take(count) {
        front.push(letter)?;
    }
    Ok(front)
}

/// Whether a command writes the front of its text, and nothing more, where each put of `out` fails
/// in turn.
fn tells_each_put(alloc: Global, command: &Command) -> Result<bool, Fail> {
    let mut all = true;
    for count in 0..command.text.len() {
        let faults = Faults {
            fetch: 0,
            out: number(count),
            err: 0,
        };
        let front = front(alloc, command.text, count)?;
        let due = format!(in alloc; "7 {front}|write fault\n")?;
        all = tells(alloc, command.line, faults, &due)? && all;
    }
    Ok(all)
}

/// Whether a command whose first file can't be read writes the front of the line that says so, and
/// nothing more, where each put of `err` fails in turn.
fn tells_each_put_of_err(alloc: Global, command: &Command) -> Result<bool, Fail> {
    let mut all = true;
    let first = command.files.first().copied().unwrap_or("");
    let line = format!(in alloc; "read fault {first}\n")?;
    for count in 0..line.len() {
        let faults = Faults {
            fetch: 1,
            out: 0,
            err: number(count),
        };
        let front = front(alloc, &line, count)?;
        let due = format!(in alloc; "7 |{front}")?;
        all = tells(alloc, command.line, faults, &due)? && all;
    }
    Ok(all)
}

/// Whether a command tells its text where no fetch and no put that it makes fails.
fn tells_its_text(alloc: Global, command: &Command) -> Result<bool, Fail> {
    let faults = Faults {
        fetch: number(command.files.len()),
        out: number(command.text.len()),
        err: 1,
    };
    let due = format!(in alloc; "0 {}|", command.text)?;
    tells(alloc, command.line, faults, &due)
}

#[test]
fn each_fetch_and_each_put_failing_in_turn(rt: HostRuntime) -> Result<(), Fail> {
    for command in &COMMANDS {
        assert!(rt; tells_its_text(rt.alloc(), command)?, "{}", command.line);
        assert!(rt; tells_each_fetch(rt.alloc(), command)?, "{}", command.line);
        assert!(rt; tells_each_put(rt.alloc(), command)?, "{}", command.line);
        assert!(rt;
            tells_each_put_of_err(rt.alloc(), command)?,
            "{}",
            command.line
        );
    }
    Ok(())
}
