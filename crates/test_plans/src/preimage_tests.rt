//! The sets of small tasks, and the preimages of several sets, against the states one by one.
ghost use Rattle.std.specs.Prelude.{◌<◌, ◌≤◌};
ghost use Rattle.dd_sets.specs.Calls.{KeepsSets};
ghost use Rattle.dd_sets.specs.LiveSets.{IsLive};
ghost use Rattle.task_core.specs.States.{IsWithin};
ghost use Rattle.task_core.specs.Tasks.{action_count, fluent_count};
ghost use Rattle.encode_task.specs.Made.{MadeOf};

use crate::random_tasks::{state, task};
use dd_sets::{SetErr, SetId};
use encode_task::{Enc, encode};
use preimage::{strong_pre, weak_pre};
use std::alloc::Global;
use std::test::Fail;
use task_core::{
    ActionId, FluentId, State, Task, cond_holds, in_space, init_states, is_exec, step,
};

/// Whether the sets of the actions say what the states do.
fn actions_agree(task: &Task, enc: &Enc, state: &State) -> bool
    requires made { MadeOf task.now enc.now }
    requires within { IsWithin (fluent_count task.now) state.now }
{
    for a in 0..task.actions.len() as u32 {
        let a = ActionId(a);
        if enc.sets().holds(enc.exec(a), state) != is_exec(task, state, a) {
            return false;
        }
        for o in 0..enc.outcomes(a) {
            let after = step(task, state, a, o);
            for f in 0..enc.fluents() {
                let next = enc.next(a, o, FluentId(f));
                if enc.sets().holds(next, state) != after.get(FluentId(f)) {
                    return false;
                }
            }
        }
    }
    true
}

/// Whether the sets of the initial states and of the goal say what the states do.
fn ends_agree(task: &Task, enc: &Enc, initial: &[State], state: &State) -> bool
    requires made { MadeOf task.now enc.now }
    requires within { IsWithin (fluent_count task.now) state.now }
{
    let is_initial = initial.iter().any(|other| other == state);
    if enc.sets().holds(enc.initial(), state) != is_initial {
        return false;
    }
    match (enc.goal(), &task.goal) {
        (Some(slot), Some(goal)) => {
            let is_held = cond_holds(goal, state);
            enc.sets().holds(slot, state) == (is_held && in_space(task, state))
        }
        (None, None) => true,
        _ => false,
    }
}

/// Whether both preimages of a set say of a vector what those of its outcomes do that are states.
fn state_agrees(
    task: &Task,
    enc: &Enc,
    a: ActionId,
    state: &State,
    slots: (SetId, SetId, SetId),
) -> bool
    requires made { MadeOf task.now enc.now }
    requires action { a.0 < action_count task.now }
    requires within { IsWithin (fluent_count task.now) state.now }
    requires x_live { IsLive enc.now.sets slots.0.0 }
    requires weak_live { IsLive enc.now.sets slots.1.0 }
    requires strong_live { IsLive enc.now.sets slots.2.0 }
{
    let mut is_some_in = false;
    let mut are_all_in = true;
    for o in 0..enc.outcomes(a) {
        let after = step(task, state, a, o);
        if !in_space(task, &after) {
            continue;
        }
        if enc.sets().holds(slots.0, &after) {
            is_some_in = true;
        } else {
            are_all_in = false;
        }
    }
    let can = is_exec(task, state, a);
    enc.sets().holds(slots.1, state) == (can && is_some_in)
        && enc.sets().holds(slots.2, state) == (can && are_all_in)
}

/// Whether both preimages of a set say what the states do. Their slots stay live.
fn preimages_agree(task: &Task, enc: &mut Enc, a: ActionId, x: SetId) -> Result<bool, SetErr>
    requires made { MadeOf task.now enc.old }
    requires action { a.0 < action_count task.now }
    requires live { IsLive enc.old.sets x.0 }
    requires few { fluent_count task.now ≤ 8 }
    ensures made { MadeOf task.now enc.new }
    ensures kept { KeepsSets enc.old.sets enc.new.sets }
{
    let weak = weak_pre(enc, a, x)?;
    let strong = strong_pre(enc, a, x)?;
    let fluents = task.fluents.len() as u32;
    for bits in 0..1u32 << fluents {
        if !state_agrees(task, enc, a, &state(bits, fluents), (x, weak, strong)) {
            return Ok(false);
        }
    }
    Ok(true)
}

/// Whether the preimages under an action say what the states do: those of the initial states, of
/// the goal, and of where each action can be executed.
fn action_agrees(task: &Task, enc: &mut Enc, a: ActionId) -> Result<bool, SetErr>
    requires made { MadeOf task.now enc.old }
    requires action { a.0 < action_count task.now }
    requires few { fluent_count task.now ≤ 8 }
    ensures made { MadeOf task.now enc.new }
{
    let initial = enc.initial();
    if !preimages_agree(task, enc, a, initial)? {
        return Ok(false);
    }
    if let Some(goal) = enc.goal()
        && !preimages_agree(task, enc, a, goal)?
    {
        return Ok(false);
    }
    for b in 0..task.actions.len() as u32 {
        let exec = enc.exec(ActionId(b));
        if !preimages_agree(task, enc, a, exec)? {
            return Ok(false);
        }
    }
    Ok(true)
}

/// Whether all sets of a seed's task, and preimages of several, say what the states do.
fn sets_agree(alloc: Global, seed: u32) -> Result<bool, Fail> {
    let task = task(alloc, seed)?.ok_or("no task")?;
    let mut enc = encode(alloc, &task, 100_000)?;
    let initial = init_states(alloc, &task, 32)?;
    let fluents = task.fluents.len() as u32;
    if fluents > 8 {
        return Ok(false);
    }
    for bits in 0..1u32 << fluents {
        let state = state(bits, fluents);
        if !actions_agree(&task, &enc, &state) || !ends_agree(&task, &enc, &initial, &state) {
            return Ok(false);
        }
    }
    for a in 0..task.actions.len() as u32 {
        if !action_agrees(&task, &mut enc, ActionId(a))? {
            return Ok(false);
        }
    }
    Ok(true)
}

#[test]
fn sets_and_preimages_agree_with_the_states(rt: HostRuntime) -> Result<(), Fail> {
    for seed in 0..300 {
        assert!(rt; sets_agree(rt.alloc(), seed)?, "at {seed}");
    }
    Ok(())
}
