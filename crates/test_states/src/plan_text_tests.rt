//! Texts of plans, read and written back, and the faults of others. What is expected was worked out
//! by hand.

use plan_rules::{PlanRead, read_plan, write_plan};
use sexpr_text::{MAX_BYTES, ReadErr};
use std::alloc::{AllocError, Global};
use std::fmt::Write;
use std::rc::RcStr;
use std::test::Fail;
use task_core::{Cond, GroundAction, InitSpec, Outcome, State, Task};

// The words of a name, which are separated by one space.
fn name(alloc: Global, words: &str) -> Result<Vec<RcStr>, AllocError> {
    let mut name = Vec::new(alloc);
    for word in words.split(' ') {
        name.push(RcStr::from_str(alloc, word)?)?;
    }
    Ok(name)
}

// An action that can always be executed and changes nothing.
fn action(alloc: Global, words: &str) -> Result<GroundAction, AllocError> {
    let same = Outcome {
        changes: Vec::new(alloc),
    };
    Ok(GroundAction {
        name: name(alloc, words)?,
        exec: Cond::Yes,
        outcomes: vec![in alloc; same]?,
    })
}

// Two places, a coin, and an action for each.
fn task(alloc: Global) -> Result<Option<Task>, AllocError> {
    let fluents = vec![in alloc;
        name(alloc, "at a")?,
        name(alloc, "at b")?,
        name(alloc, "up")?,
    ]?;
    let actions = vec![in alloc; action(alloc, "go a b")?, action(alloc, "flip")?]?;
    let init = InitSpec {
        facts: State::none(),
        entries: Vec::new(alloc),
    };
    Ok(Task::try_new(fluents, actions, init, None, Cond::Yes))
}

// What the reader answers: the text of the plan that it read, or the fault.
fn answer(alloc: Global, bytes: &[u8], task: &Task) -> Result<String, AllocError> {
    let mut out = String::new(alloc);
    if bytes.len() > MAX_BYTES {
        out.push_str("too long")?;
        return Ok(out);
    }
    match read_plan(alloc, bytes, task) {
        Ok(PlanRead { plan, place }) => {
            write!(out, "{}:{} ", place.line, place.column)?;
            for byte in write_plan(alloc, &plan, task)? {
                out.push(char::from(byte))?;
            }
        }
        Err(ReadErr::Fault(fault)) => {
            let place = fault.place;
            write!(out, "{} {}:{}", fault.kind.name(), place.line, place.column)?;
        }
        Err(ReadErr::Memory) => out.push_str("out of memory")?,
    }
    Ok(out)
}

#[test]
fn texts_and_their_answers(rt: HostRuntime) -> Result<(), Fail> {
    let alloc = rt.alloc();
    let task = task(alloc)?.ok_or("no task")?;
    let table: [(&[u8], &str); 30] = [
        (
            b"(plan table cyclic (rule ((NOT (up))) (flip)))",
            "1:1 (plan table cyclic\n  (rule ((not (up))) (flip))\n)\n",
        ),
        (
            b"x (note)\n (plan table weak (rule ((at a) (at a) (not (at b))) (go a b)) (rule () (flip)))",
            "2:2 (plan table weak\n  (rule ((at a) (at a) (not (at b))) (go a b))\n  (rule () (flip))\n)\n",
        ),
        (
            b"(plan automaton 02 (rule 1 () (flip) 2) (rule 2 ((up)) (go a b) ((((up)) 1) (() 002))))",
            "1:1 (plan automaton 2\n  (rule 1 () (flip) 2)\n  (rule 2 ((up)) (go a b) ((((up)) 1) (() 2)))\n)\n",
        ),
        (
            b"(plan automaton 1000000 (rule 1 () (flip) ()))",
            "1:1 (plan automaton 1000000\n  (rule 1 () (flip) ())\n)\n",
        ),
        (b"(plan table strong) )", "StrayClose 1:21"),
        (b"(plans table weak)", "NoDefine 1:1"),
        (b"\n (plan)", "BadForm 2:2"),
        (b"(plan tables weak)", "BadForm 1:7"),
        (b"(plan table)", "BadForm 1:1"),
        (b"(plan table best)", "BadForm 1:13"),
        (b"(plan automaton)", "BadForm 1:1"),
        (b"(plan automaton (1))", "BadForm 1:17"),
        (b"(plan automaton 0)", "BadNumber 1:17"),
        (b"(plan automaton 1000001)", "BadNumber 1:17"),
        (b"(plan table weak rule)", "BadForm 1:18"),
        (b"(plan table weak (rule ()))", "BadForm 1:18"),
        (b"(plan table weak (rule () (flip) 1))", "BadForm 1:18"),
        (b"(plan table weak (rule () (fly)))", "UnknownAction 1:27"),
        (b"(plan table weak (rule () ()))", "UnknownAction 1:27"),
        (b"(plan table weak (rule (up) (flip)))", "BadForm 1:25"),
        (b"(plan table weak (rule (()) (flip)))", "UnknownName 1:25"),
        (
            b"(plan table weak (rule ((not (at c))) (fly)))",
            "UnknownName 1:30",
        ),
        (
            b"(plan table weak (rule ((not (not up))) (flip)))",
            "BadForm 1:30",
        ),
        (
            b"(plan table weak (rule ((not up)) (flip)))",
            "BadForm 1:25",
        ),
        (
            b"(plan table weak (rule ((not ())) (flip)))",
            "UnknownName 1:30",
        ),
        (b"(plan automaton 2 (rule 3 () (flip) 1))", "BadNumber 1:25"),
        (b"(plan automaton 2 (rule (1) () (flip) 1))", "BadForm 1:25"),
        (
            b"(plan automaton 2 (rule 1 () (flip) one))",
            "BadNumber 1:37",
        ),
        (
            b"(plan automaton 2 (rule 1 () (flip) (up)))",
            "BadForm 1:38",
        ),
        (
            b"(plan automaton 2 (rule 1 () (flip) ((() (1)))))",
            "BadForm 1:42",
        ),
    ];
    for (text, want) in table {
        assert_eq!(rt; answer(alloc, text, &task)?.as_str(), want);
    }
    Ok(())
}

#[test]
fn a_long_plan_is_read(rt: HostRuntime) -> Result<(), Fail> {
    let alloc = rt.alloc();
    let task = task(alloc)?.ok_or("no task")?;
    let mut text = Vec::from_slice(alloc, b"(plan table weak)")?;
    text.pop();
    for _ in 0..40_328 {
        text.extend_from_slice(b"(rule ((at b)) (go a b)) \n")?;
    }
    for _ in text.len()..MAX_BYTES - 1 {
        text.push(b' ')?;
    }
    text.push(b')')?;
    assert_eq!(rt; text.len(), MAX_BYTES);
    let shown = answer(alloc, &text, &task)?;
    assert!(rt; shown.as_str().ends_with("  (rule ((at b)) (go a b))\n)\n"));
    Ok(())
}
