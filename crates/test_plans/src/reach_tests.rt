//! Small tasks, and the texts of their weak and strong plans, worked out by hand; a counter; and
//! tables without room.

ghost use Rattle.std.specs.Prelude.{IfOk, IsSome};

use dd_sets::SetErr;
use encode_task::encode;
use plan_rules::{Plan, write_plan};
use plan_theory::Found;
use reach_plan::{plan_strong, plan_weak};
use std::alloc::{AllocError, Global};
use std::rc::RcStr;
use std::test::Fail;
use task_core::{
    Alternative, Change, Cond, FluentId, GroundAction, InitSpec, Lit, Outcome, State, Task,
};

/// The most nodes that a table may have.
const MANY: u32 = 16_777_216;

/// The fluent of a letter, in either case: `p`, `q` and others.
fn fluent(letter: u8) -> FluentId {
    match letter {
        b'P' | b'p' => FluentId(0),
        _ => FluentId(1),
    }
}

/// A literal for each letter: true for a capital one.
pub fn literals(alloc: Global, letters: &str) -> Result<Vec<Lit>, AllocError> {
    let mut lits = Vec::new(alloc);
    for letter in letters.bytes() {
        lits.push(Lit {
            fluent: fluent(letter),
            positive: letter.is_ascii_uppercase(),
        })?;
    }
    Ok(lits)
}

/// That all literals hold.
pub fn all_of(alloc: Global, lits: &[Lit]) -> Result<Cond, AllocError> {
    let mut parts = Vec::new(alloc);
    for lit in lits {
        let is = Cond::Is(lit.fluent);
        if lit.positive {
            parts.push(is)?;
        } else {
            parts.push(Cond::Not(Box::new(alloc, is)?))?;
        }
    }
    Ok(Cond::All(parts))
}

/// The change of each literal.
fn outcome(alloc: Global, lits: &[Lit]) -> Result<Outcome, AllocError> {
    let mut changes = Vec::new(alloc);
    changes.push(Change {
        cond: Cond::Yes,
        lits: Vec::from_slice(alloc, lits)?,
    })?;
    Ok(Outcome { changes })
}

/// A name of one word.
pub fn name(alloc: Global, word: &str) -> Result<Vec<RcStr>, AllocError> {
    Ok(vec![in alloc; RcStr::from_str(alloc, word)?]?)
}

/// The action of a condition and its outcomes.
pub fn action(alloc: Global, word: &str, parts: &[&str]) -> Result<GroundAction, AllocError> {
    let mut exec = Cond::Yes;
    let mut outcomes = Vec::new(alloc);
    for (at, letters) in parts.iter().enumerate() {
        let lits = literals(alloc, letters)?;
        if at == 0 {
            exec = all_of(alloc, &lits)?;
        } else {
            outcomes.push(outcome(alloc, &lits)?)?;
        }
    }
    Ok(GroundAction {
        name: name(alloc, word)?,
        exec,
        outcomes,
    })
}

/// A task over the fluents `p` and `q`, both false at first; where `free` says so `q` may be true.
fn task(alloc: Global, free: bool, goal: &str, actions: &[&[&str]]) -> Result<Task, Fail>
    ensures { IfOk result (λ task. IsSome task.goal) }
{
    let mut listed = Vec::new(alloc);
    for (parts, word) in actions.iter().zip(["a", "b", "c"]) {
        listed.push(action(alloc, word, parts)?)?;
    }
    let mut entries = Vec::new(alloc);
    if free {
        let mut entry = Vec::new(alloc);
        for letters in ["q", "Q"] {
            entry.push(Alternative {
                lits: literals(alloc, letters)?,
            })?;
        }
        entries.push(entry)?;
    }
    let init = InitSpec {
        facts: State::none(),
        entries,
    };
    let goal = all_of(alloc, &literals(alloc, goal)?)?;
    let fluents = vec![in alloc; name(alloc, "p")?, name(alloc, "q")?]?;
    let task = Task::try_new(fluents, listed, init, Some(goal), Cond::Yes);
    Ok(task.ok_or("these are the parts of a task")?)
}

/// The text of a weak or a strong plan; none where there is no plan.
pub fn text(alloc: Global, task: &Task, strong: bool) -> Result<String, SetErr>
    requires { IsSome task.now.goal }
{
    let mut text = String::new(alloc);
    let mut enc = encode(alloc, task, MANY)?;
    let found = if strong {
        plan_strong(alloc, task, &mut enc)?
    } else {
        plan_weak(alloc, task, &mut enc)?
    };
    if let Found::Plan(plan) = found {
        for byte in write_plan(alloc, &Plan::Table(plan), task)? {
            text.push(char::from(byte))?;
        }
    }
    Ok(text)
}

/// A small task, and the texts of its plans without their first words; none where there is no plan.
struct Sample<'a> {
    free: bool,
    goal: &'a str,
    actions: &'a [&'a [&'a str]],
    weak: &'a str,
    strong: &'a str,
}

const SAMPLES: &[Sample<'static>] = &[
    // The action sets `p`, or changes nothing.
    Sample {
        free: false,
        goal: "P",
        actions: &[&["", "P", ""]],
        weak: "(plan table weak\n  (rule ((not (p))) (a))\n)\n",
        strong: "",
    },
    // The goal holds everywhere.
    Sample {
        free: true,
        goal: "",
        actions: &[&["", "P"]],
        weak: "(plan table weak\n)\n",
        strong: "(plan table strong\n)\n",
    },
    // From one of the two initial states nothing leads on.
    Sample {
        free: true,
        goal: "P",
        actions: &[&["Q", "P"]],
        weak: "",
        strong: "",
    },
    // `a` sets `p`, and `b` then `q`: `a` is taken in two layers.
    Sample {
        free: false,
        goal: "PQ",
        actions: &[&["", "P"], &["P", "Q"]],
        weak: "(plan table weak\n  (rule ((not (p))) (a))\n  (rule ((p) (not (q))) (b))\n)\n",
        strong: "(plan table strong\n  (rule ((not (p))) (a))\n  (rule ((p) (not (q))) (b))\n)\n",
    },
    // `a` leads nowhere, `b` to the goal from some states, and `c` may do so from all.
    Sample {
        free: true,
        goal: "P",
        actions: &[&["", ""], &["Q", "P"], &["", "q", "P"]],
        weak: "(plan table weak\n  (rule ((not (p)) (q)) (b))\n  \
            (rule ((not (p)) (not (q))) (c))\n)\n",
        strong: "",
    },
    // `a` sets `p` or `q`, and `b` sets `p` where `q` is true.
    Sample {
        free: false,
        goal: "P",
        actions: &[&["", "P", "Q"], &["Q", "P"]],
        weak: "(plan table weak\n  (rule ((not (p))) (a))\n)\n",
        strong: "(plan table strong\n  (rule ((not (p)) (not (q))) (a))\n  \
            (rule ((not (p)) (q)) (b))\n)\n",
    },
];

/// The texts of the weak and the strong plan of a sample; empty where there is none.
fn texts(alloc: Global, sample: &Sample) -> Result<(String, String), Fail> {
    let task = task(alloc, sample.free, sample.goal, sample.actions)?;
    Ok((text(alloc, &task, false)?, text(alloc, &task, true)?))
}

#[test]
fn prints_the_plans_of_small_tasks(rt: HostRuntime) -> Result<(), Fail> {
    for sample in SAMPLES {
        let (weak, strong) = texts(rt.alloc(), sample)?;
        assert_eq!(rt; weak.as_str(), sample.weak);
        assert_eq!(rt; strong.as_str(), sample.strong);
    }
    Ok(())
}

/// Whether the planner finds no room with some limit on nodes below 40, and whether it finds a plan
/// with some.
fn small_tables(alloc: Global) -> Result<(bool, bool), Fail> {
    let task = task(alloc, false, "P", &[&["", "P", "Q"], &["Q", "P"]])?;
    let mut refused = false;
    let mut found = false;
    for limit in 1..40 {
        if let Ok(mut enc) = encode(alloc, &task, limit) {
            match plan_strong(alloc, &task, &mut enc) {
                Ok(Found::Plan(_)) => found = true,
                Err(SetErr::Full) => refused = true,
                _ => {}
            }
        }
    }
    Ok((refused, found))
}

// With a limit on nodes that rises, there is first no room for the sets of the task, then none for
// the planner, and then there is a plan.
#[test]
fn finds_no_room_in_small_tables(rt: HostRuntime) -> Result<(), Fail> {
    let (refused, found) = small_tables(rt.alloc())?;
    assert!(rt; refused, "there is no room");
    assert!(rt; found, "there is room");
    Ok(())
}

/// A counter of nine fluents, the first of which changes with each step.
fn counter(alloc: Global) -> Result<Task, Fail>
    ensures { IfOk result (λ task. IsSome task.goal) }
{
    let mut fluents = Vec::new(alloc);
    let mut changes = Vec::new(alloc);
    let mut goal = Vec::new(alloc);
    for (f, word) in ["a", "b", "c", "d", "e", "f", "g", "h", "i"]
        .iter()
        .enumerate()
    {
        let fluent = FluentId(f as u32);
        for positive in [false, true] {
            let mut parts = Vec::new(alloc);
            for lower in 0..f as u32 {
                parts.push(Cond::Is(FluentId(lower)))?;
            }
            let is = Cond::Is(fluent);
            if positive {
                parts.push(Cond::Not(Box::new(alloc, is)?))?;
            } else {
                parts.push(is)?;
            }
            let lit = Lit { fluent, positive };
            changes.push(Change {
                cond: Cond::All(parts),
                lits: vec![in alloc; lit]?,
            })?;
        }
        goal.push(Cond::Is(fluent))?;
        fluents.push(name(alloc, word)?)?;
    }
    let step = GroundAction {
        name: name(alloc, "step")?,
        exec: Cond::Yes,
        outcomes: vec![in alloc; Outcome { changes }]?,
    };
    let init = InitSpec {
        facts: State::none(),
        entries: Vec::new(alloc),
    };
    let goal = Some(Cond::All(goal));
    let task = Task::try_new(fluents, vec![in alloc; step]?, init, goal, Cond::Yes);
    Ok(task.ok_or("these are the parts of a task")?)
}

// The plan has 511 layers. Its one action is taken in all states but one: where the first fluent
// is false, or the first is true and the second false, and so on.
#[test]
fn counts_to_the_end(rt: HostRuntime) -> Result<(), Fail> {
    let alloc = rt.alloc();
    let task = counter(alloc)?;
    for strong in [false, true] {
        let plan = text(alloc, &task, strong)?;
        assert_eq!(rt; plan.as_str().lines().count(), 11);
    }
    Ok(())
}
