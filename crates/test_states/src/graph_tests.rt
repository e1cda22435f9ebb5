//! Graphs of small plans, worked out by hand, and the two limits.

ghost use Rattle.std.specs.Prelude.{◌≡◌, ◌<◌, IfOk};
ghost use Rattle.plan_rules.specs.Plans.{IsPlanOf};
ghost use Rattle.task_core.specs.Tasks.{action_count, fluent_count};

use exec_graph::{Graph, GraphErr, Steps, explore};
use plan_rules::{Plan, read_plan};
use std::alloc::{AllocError, Global};
use std::fmt::Write;
use std::marker::Brand;
use std::rc::RcStr;
use std::sync::ledger::{Blank, Ledger};
use std::test::Fail;
use task_core::{
    Alternative, Change, Cond, FluentId, GroundAction, InitSpec, Lit, Outcome, State, Task,
};

fn name(alloc: Global, word: &str) -> Result<Vec<RcStr>, AllocError> {
    Ok(vec![in alloc; RcStr::from_str(alloc, word)?]?)
}

// An outcome that makes a fluent true.
fn makes_true(alloc: Global, fluent: u32) -> Result<Outcome, AllocError> {
    let lit = Lit {
        fluent: FluentId(fluent),
        positive: true,
    };
    let change = Change {
        cond: Cond::Yes,
        lits: vec![in alloc; lit]?,
    };
    Ok(Outcome {
        changes: vec![in alloc; change]?,
    })
}

// Where fluent 0 is false, it becomes true or stays.
fn flip(alloc: Global) -> Result<GroundAction, AllocError> {
    let nothing = Outcome {
        changes: Vec::new(alloc),
    };
    Ok(GroundAction {
        name: name(alloc, "flip")?,
        exec: Cond::Not(Box::new(alloc, Cond::Is(FluentId(0)))?),
        outcomes: vec![in alloc; makes_true(alloc, 0)?, nothing]?,
    })
}

// The fluent becomes true.
fn set(alloc: Global, fluent: u32, word: &str) -> Result<GroundAction, AllocError> {
    Ok(GroundAction {
        name: name(alloc, word)?,
        exec: Cond::Yes,
        outcomes: vec![in alloc; makes_true(alloc, fluent)?]?,
    })
}

// Each value of the fluent.
fn either(alloc: Global, fluent: u32) -> Result<Vec<Alternative>, AllocError> {
    let mut entry = Vec::new(alloc);
    for positive in [true, false] {
        entry.push(Alternative {
            lits: Vec::from_slice(
                alloc,
                &[Lit {
                    fluent: FluentId(fluent),
                    positive,
                }],
            )?,
        })?;
    }
    Ok(entry)
}

// Fluents `p` and `q`, of which the first so many are unknown at first, `flip` for `p` and `set`
// for `q`.
fn coin(alloc: Global, unknown: u32, invariant: Cond) -> Result<Option<Task>, AllocError> {
    let mut entries = Vec::new(alloc);
    for fluent in 0..unknown {
        entries.push(either(alloc, fluent)?)?;
    }
    let init = InitSpec {
        facts: State::none(),
        entries,
    };
    let fluents = vec![in alloc; name(alloc, "p")?, name(alloc, "q")?]?;
    let actions = vec![in alloc; flip(alloc)?, set(alloc, 1, "set")?]?;
    Ok(Task::try_new(fluents, actions, init, None, invariant))
}

// Not both `p` and `q`.
fn not_both(alloc: Global) -> Result<Cond, AllocError> {
    let both = Cond::All(vec![in alloc; Cond::Is(FluentId(0)), Cond::Is(FluentId(1))]?);
    Ok(Cond::Not(Box::new(alloc, both)?))
}

// The graph as a text: each configuration with its values and context, `*` where it is initial, and
// the numbers that follow it; then the two marks.
fn shown<L: Ledger>(alloc: Global, graph: &Graph, blank: Blank) -> Result<String, AllocError>
    requires name { blank.name ≡ L.name }
    requires parts { blank.parts ≡ L.parts }
    requires some { 0 < blank.parts }
{
    let mut steps = Steps::<L>::new(blank);
    let mut out = String::new(alloc);
    for i in 0..graph.len() {
        let state = graph.state(i);
        let p = u8::from(state.get(FluentId(0)));
        let q = u8::from(state.get(FluentId(1)));
        let mark = if graph.initial(i) { "*" } else { "" };
        write!(out, "{p}{q}.{}{mark}>", graph.context(i))?;
        for k in 0..graph.next_len(i) {
            let j = graph.next_at(i, k, &mut steps);
            write!(out, "{j},")?;
        }
        out.push(' ')?;
    }
    if graph.unexecutable() {
        out.push_str("unexecutable ")?;
    }
    if graph.stuck() {
        out.push_str("stuck ")?;
    }
    Ok(out)
}

// The plan that a text spells.
fn plan_of(alloc: Global, bytes: &[u8], task: &Task) -> Result<Plan, Fail>
    ensures { IfOk result (IsPlanOf (fluent_count task.now) (action_count task.now)) }
{
    if bytes.len() > 1_048_576 {
        return Err("too long".into());
    }
    match read_plan(alloc, bytes, task) {
        Ok(read) => Ok(read.plan),
        Err(_) => Err("no plan".into()),
    }
}

// The graph of the plan that a text spells, as a text.
fn answer(alloc: Global, bytes: &[u8], task: &Task) -> Result<String, Fail> {
    let plan = plan_of(alloc, bytes, task)?;
    match explore(alloc, task, &plan) {
        Ok(graph) => Ok(shown::<Brand>(alloc, &graph, Blank::new(1))?),
        Err(_) => Err("no graph".into()),
    }
}

static TABLES: [(&str, &str); 4] = [
    (
        "(plan table weak (rule ((not (p))) (flip)))",
        "00.1*>1,0, 10.1> ",
    ),
    // Both rules count, and so an action that can't be executed.
    (
        "(plan table weak (rule () (flip)) (rule ((not (q))) (set)))",
        "00.1*>1,0,2, 10.1>3, 01.1>3,2, 11.1> unexecutable ",
    ),
    // The same outcome of two rules.
    (
        "(plan table weak (rule () (set)) (rule ((q)) (set)))",
        "00.1*>1, 01.1>1, ",
    ),
    ("(plan table weak)", "00.1*> "),
];

#[test]
fn graphs_of_tables(rt: HostRuntime) -> Result<(), Fail> {
    let alloc = rt.alloc();
    let task = coin(alloc, 0, Cond::Yes)?.ok_or("no task")?;
    for (text, want) in TABLES {
        assert_eq!(rt; answer(alloc, text.as_bytes(), &task)?.as_str(), want);
    }
    Ok(())
}

static AUTOMATA: [(&str, &str); 4] = [
    // One state in two contexts; an outcome without a next context; a configuration without a rule.
    (
        "(plan automaton 2 (rule 1 () (set) 2) (rule 2 ((not (p))) (flip) ((((p)) 1))))",
        "00.1*>1, 01.2>2, 11.1>3, 11.2> stuck ",
    ),
    // The first rule that matches counts, and no other.
    (
        "(plan automaton 1 (rule 1 ((p)) (flip) 1) (rule 1 () (set) 1) (rule 1 () (flip) 1))",
        "00.1*>1, 01.1>1, ",
    ),
    (
        "(plan automaton 1 (rule 1 () (flip) 1) (rule 1 () (set) 1))",
        "00.1*>1,0, 10.1> unexecutable ",
    ),
    ("(plan automaton 3 (rule 2 () (set) 1))", "00.1*> stuck "),
];

#[test]
fn graphs_of_automata(rt: HostRuntime) -> Result<(), Fail> {
    let alloc = rt.alloc();
    let task = coin(alloc, 0, Cond::Yes)?.ok_or("no task")?;
    for (text, want) in AUTOMATA {
        assert_eq!(rt; answer(alloc, text.as_bytes(), &task)?.as_str(), want);
    }
    Ok(())
}

#[test]
fn several_initial_states(rt: HostRuntime) -> Result<(), Fail> {
    let alloc = rt.alloc();
    let task = coin(alloc, 1, Cond::Yes)?.ok_or("no task")?;
    let shown = answer(alloc, b"(plan table weak (rule ((p)) (set)))", &task)?;
    assert_eq!(rt; shown.as_str(), "10.1*>2, 00.1*> 11.1>2, ");
    Ok(())
}

static INSIDE: [(u32, &str, &str); 3] = [
    // Where `q` is true, `flip` changes nothing: its other outcome leads to no state.
    (
        0,
        "(plan table weak (rule ((not (p))) (flip)) (rule ((not (p))) (set)))",
        "00.1*>1,0,2, 10.1> 01.1>2, ",
    ),
    // Where `p` is true, `set` can't be executed.
    (
        0,
        "(plan table weak (rule () (flip)) (rule ((p)) (set)))",
        "00.1*>1,0, 10.1> unexecutable ",
    ),
    (2, "(plan table weak)", "10.1*> 01.1*> 00.1*> "),
];

#[test]
fn graphs_inside_a_set_of_states(rt: HostRuntime) -> Result<(), Fail> {
    let alloc = rt.alloc();
    for (unknown, text, want) in INSIDE {
        let task = coin(alloc, unknown, not_both(alloc)?)?.ok_or("no task")?;
        assert_eq!(rt; answer(alloc, text.as_bytes(), &task)?.as_str(), want);
    }
    Ok(())
}

// So many fluents, of which the first so many are unknown, and for each an action that makes it
// true.
fn switches(alloc: Global, count: u32, unknown: u32) -> Result<Option<Task>, AllocError> {
    let mut fluents = Vec::new(alloc);
    let mut actions = Vec::new(alloc);
    let mut entries = Vec::new(alloc);
    for fluent in 0..count {
        let word = format!(in alloc; "f{fluent}")?;
        fluents.push(name(alloc, word.as_str())?)?;
        actions.push(set(alloc, fluent, word.as_str())?)?;
        if fluent < unknown {
            entries.push(either(alloc, fluent)?)?;
        }
    }
    let init = InitSpec {
        facts: State::none(),
        entries,
    };
    Ok(Task::try_new(fluents, actions, init, None, Cond::Yes))
}

// The table that makes each fluent true that is false.
fn all_switches(alloc: Global, count: u32) -> Result<String, AllocError> {
    let mut text = String::new(alloc);
    text.push_str("(plan table weak")?;
    for fluent in 0..count {
        write!(text, " (rule ((not (f{fluent}))) (f{fluent}))")?;
    }
    text.push(')')?;
    Ok(text)
}

// How many configurations the graph has, or the name of what was refused.
fn size_or_refusal(alloc: Global, count: u32, unknown: u32) -> Result<String, Fail> {
    let task = switches(alloc, count, unknown)?.ok_or("no task")?;
    let text = all_switches(alloc, count)?;
    let plan = plan_of(alloc, text.as_bytes(), &task)?;
    match explore(alloc, &task, &plan) {
        Ok(graph) => Ok(format!(in alloc; "{}", graph.len())?),
        Err(GraphErr::Initial) => Ok(String::from_str(alloc, "initial")?),
        Err(GraphErr::TooLarge) => Ok(String::from_str(alloc, "too large")?),
        Err(GraphErr::Memory) => Ok(String::from_str(alloc, "memory")?),
    }
}

#[test]
fn the_limits(rt: HostRuntime) -> Result<(), Fail> {
    let alloc = rt.alloc();
    for (count, unknown, want) in [
        (18, 0, "262144"),
        (19, 0, "too large"),
        (18, 18, "262144"),
        (19, 19, "initial"),
    ] {
        assert_eq!(rt; size_or_refusal(alloc, count, unknown)?.as_str(), want);
    }
    Ok(())
}
