//! A task whose set of states leaves out one vector, and what is worked out for it by hand: the
//! preimages of all sets, the plans of each class, and a chain.

ghost use Rattle.std.specs.Prelude.{◌≡◌, ◌<◌, IfOk, IsSome, true};
ghost use Rattle.encode_task.specs.Made.{MadeOf};
ghost use Rattle.context_plan.specs.Chains.{IsUntilOver};
ghost use Rattle.task_core.specs.Conditions.{IsConditionOver, ids_below};
ghost use Rattle.task_core.specs.Tasks.{action_count, fluent_count};

use crate::encode_tests::table;
use crate::reach_tests::{action, all_of, literals, name, text};
use context_plan::{FoundAuto, plan_until};
use ctl_syntax::{UntilChain, UntilStage};
use cyclic_plan::plan_cyclic;
use dd_sets::SetErr;
use encode_task::{Enc, encode};
use plan_rules::{Plan, write_plan};
use plan_theory::Found;
use preimage::{strong_pre, weak_pre};
use std::alloc::{AllocError, Global};
use std::test::Fail;
use task_core::{ActionId, Alternative, Class, Cond, FluentId, InitSpec, State, Task};

/// The most nodes that a table may have.
const MANY: u32 = 1000;

/// The actions, each with its precondition and its outcomes: `a` leads from `p` back, or to both
/// fluents, which is no state; `b` to `p` or to `q`; `c` to no state.
const ACTIONS: &[(&str, &[&str])] = &[
    ("a", &["P", "p", "Q"]),
    ("b", &["p", "P", "Q"]),
    ("c", &["", "PQ"]),
];

/// The task over the fluents `p` and `q`, which are never both true. At first `p` is true, and `q`
/// would be true or not, if that were a state.
fn task(alloc: Global, goal: Cond) -> Result<Task, Fail>
    ensures goal { IfOk result (λ task. IsSome task.goal) }
    ensures two { IfOk result (λ task. fluent_count task ≡ 2) }
{
    let mut actions = Vec::new(alloc);
    for (word, parts) in ACTIONS {
        actions.push(action(alloc, word, parts)?)?;
    }
    let mut entry = Vec::new(alloc);
    for letters in ["", "Q"] {
        entry.push(Alternative {
            lits: literals(alloc, letters)?,
        })?;
    }
    let init = InitSpec {
        facts: State::none().with(FluentId(0), true),
        entries: vec![in alloc; entry]?,
    };
    let both = all_of(alloc, &literals(alloc, "PQ")?)?;
    let invariant = Cond::Not(Box::new(alloc, both)?);
    let fluents = vec![in alloc; name(alloc, "p")?, name(alloc, "q")?]?;
    let task = Task::try_new(fluents, actions, init, Some(goal), invariant);
    Ok(task.ok_or("these are the parts of a task")?)
}

/// That a vector is in a set: bit 0 for neither fluent, 1 for `p`, 2 for `q`, 3 for both.
fn is_in(alloc: Global, set: u8) -> Result<Cond, AllocError> {
    let mut vectors = Vec::new(alloc);
    for (bit, letters) in ["pq", "Pq", "pQ", "PQ"].iter().enumerate() {
        if set >> bit & 1 == 1 {
            vectors.push(all_of(alloc, &literals(alloc, letters)?)?)?;
        }
    }
    Ok(Cond::Any(vectors))
}

/// The weak and the strong preimage of where a condition holds.
fn made_preimages(task: &Task, enc: &mut Enc, a: ActionId, cond: &Cond) -> Result<(u8, u8), SetErr>
    requires made { MadeOf task.now enc.old }
    requires action { a.0 < action_count task.now }
    requires fluents { ids_below (fluent_count task.now) cond.now ≡ true }
{
    let x = enc.set_of(cond)?;
    let weak = weak_pre(enc, a, x)?;
    let strong = strong_pre(enc, a, x)?;
    Ok((table(enc.sets(), weak), table(enc.sets(), strong)))
}

/// The weak and the strong preimage of a set under an action.
fn preimages(alloc: Global, a: u32, set: u8) -> Result<(u8, u8), Fail> {
    let task = task(alloc, is_in(alloc, set)?)?;
    let mut enc = encode(alloc, &task, MANY)?;
    match task.goal.as_ref() {
        Some(goal) if (a as usize) < task.actions.len() => {
            Ok(made_preimages(&task, &mut enc, ActionId(a), goal)?)
        }
        _ => Err("no such action".into()),
    }
}

/// The same by the states to which the action leads from each vector: some of them is in the set,
/// and there is one and each is.
fn listed_preimages(next: &[u8; 4], set: u8) -> (u8, u8) {
    let mut weak = 0;
    let mut strong = 0;
    for (bit, after) in next.iter().enumerate() {
        if after & set != 0 {
            weak |= 1u8 << bit;
        }
        if *after != 0 && after & !set == 0 {
            strong |= 1u8 << bit;
        }
    }
    (weak, strong)
}

#[test]
fn finds_the_preimages_of_all_sets(rt: HostRuntime) -> Result<(), Fail> {
    let next = [[0, 0b0001, 0, 0], [0b0110, 0, 0b0100, 0], [0, 0, 0, 0]];
    for (a, after) in next.iter().enumerate() {
        for set in 0..16 {
            let found = preimages(rt.alloc(), a as u32, set)?;
            assert_eq!(rt; found, listed_preimages(after, set), "of {set} under {a}");
        }
    }
    Ok(())
}

/// The states, the initial states, and those of the goal, which is that `p` is false.
fn kept(alloc: Global) -> Result<[u8; 3], Fail> {
    let task = task(alloc, is_in(alloc, 0b0101)?)?;
    let enc = encode(alloc, &task, MANY)?;
    let sets = enc.sets();
    match enc.goal() {
        Some(goal) => Ok([
            table(sets, enc.space()),
            table(sets, enc.initial()),
            table(sets, goal),
        ]),
        None => Err("no goal".into()),
    }
}

/// The text of a strong cyclic plan; none where there is no plan.
fn cyclic_text(alloc: Global, task: &Task) -> Result<String, SetErr>
    requires { IsSome task.now.goal }
{
    let mut text = String::new(alloc);
    let mut enc = encode(alloc, task, MANY)?;
    if let Found::Plan(plan) = plan_cyclic(alloc, task, &mut enc)? {
        for byte in write_plan(alloc, &Plan::Table(plan), task)? {
            text.push(char::from(byte))?;
        }
    }
    Ok(text)
}

/// The text of the plan of a class to a set; none where there is no plan.
fn plan_to(alloc: Global, set: u8, class: Class) -> Result<String, Fail> {
    let task = task(alloc, is_in(alloc, set)?)?;
    match class {
        Class::Weak => Ok(text(alloc, &task, false)?),
        Class::Strong => Ok(text(alloc, &task, true)?),
        Class::Cyclic => Ok(cyclic_text(alloc, &task)?),
    }
}

// From `p` one goes back for certain, and then to `q` after some time.
#[test]
fn plans_among_the_states(rt: HostRuntime) -> Result<(), Fail> {
    let alloc = rt.alloc();
    assert_eq!(rt; kept(alloc)?, [0b0111, 0b0010, 0b0101]);
    let plans = [
        (
            0b0001,
            Class::Strong,
            "(plan table strong\n  (rule ((p) (not (q))) (a))\n)\n",
        ),
        (0b0100, Class::Strong, ""),
        (
            0b0100,
            Class::Weak,
            "(plan table weak\n  (rule ((p) (not (q))) (a))\n  \
            (rule ((not (p)) (not (q))) (b))\n)\n",
        ),
        (
            0b0100,
            Class::Cyclic,
            "(plan table cyclic\n  (rule ((p) (not (q))) (a))\n  \
            (rule ((not (p)) (not (q))) (b))\n)\n",
        ),
    ];
    for (set, class, wanted) in plans {
        assert_eq!(rt; plan_to(alloc, set, class)?.as_str(), wanted);
    }
    Ok(())
}

fn not_p(alloc: Global) -> Result<Cond, AllocError>
    ensures { IfOk result (IsConditionOver 2) }
{
    Ok(Cond::Not(Box::new(alloc, Cond::Is(FluentId(0)))?))
}

/// That `p` is false at last.
fn back(alloc: Global) -> Result<UntilChain, AllocError>
    ensures { IfOk result (IsUntilOver 2) }
{
    let stage = UntilStage {
        guard: Cond::Yes,
        target: not_p(alloc)?,
    };
    Ok(UntilChain {
        stages: vec![in alloc; stage]?,
        keep: Cond::Yes,
    })
}

/// The text of the plan for a chain; none where there is no plan.
fn chain_text(alloc: Global, task: &Task, chain: &UntilChain) -> Result<String, SetErr>
    requires two { fluent_count task.now ≡ 2 }
    requires chain { IsUntilOver 2 chain.now }
{
    let mut text = String::new(alloc);
    let mut enc = encode(alloc, task, MANY)?;
    if let FoundAuto::Plan(plan) = plan_until(alloc, task, &mut enc, chain)? {
        for byte in write_plan(alloc, &Plan::Auto(plan), task)? {
            text.push(char::from(byte))?;
        }
    }
    Ok(text)
}

/// The text of the plan by which `p` is false at last.
fn plan_back(alloc: Global) -> Result<String, Fail> {
    let task = task(alloc, Cond::Yes)?;
    let chain = back(alloc)?;
    Ok(chain_text(alloc, &task, &chain)?)
}

// From `p` there is one way back alone, and nothing leads to both fluents.
#[test]
fn plans_a_chain_among_the_states(rt: HostRuntime) -> Result<(), Fail> {
    let wanted = "(plan automaton 2\n  (rule 1 ((p) (not (q))) (a) 1)\n  \
        (rule 1 ((not (p))) (b) 2)\n  (rule 2 ((p) (not (q))) (a) 2)\n  \
        (rule 2 ((not (p))) (b) 2)\n)\n";
    assert_eq!(rt; plan_back(rt.alloc())?.as_str(), wanted);
    Ok(())
}
