//! The states from which every visit can be made again and again, and those that take each action.

ghost use Rattle.std.specs.Prelude.{◌≡◌, ℕ, suc, ◌≤◌, ◌+◌, ◌<◌, List, get_or, length, true, false, IfOk};
ghost use Rattle.plan_theory.specs.Patrols.{covers_patrol};
ghost use Rattle.context_plan.specs.Chains.{visit_sets};
ghost use Rattle.task_core.specs.Tasks.{action_count};
ghost use Rattle.task_core.specs.declared.conditions.Cond.{Cond as CondOf};
ghost use Rattle.context_plan.specs.Chains.{IsPatrolOver};
ghost use Rattle.context_plan.specs.PatrolSizes.{PatrolFits};
ghost use Rattle.context_plan.specs.Noted.{AreStepsFrom, FoundNotes, NotedLast, NotedVisits};
ghost use Rattle.context_plan.specs.PatrolSizes.{made_in, within_round};
ghost use Rattle.plan_theory.specs.Patrols.{patrol_set};
ghost use Rattle.context_plan.specs.Scenes.{guarded};
ghost use Rattle.context_plan.specs.PatrolSteps.{HasMet, HasPatrol, HasStay, HasVisits, made_at_last};
ghost use Rattle.context_plan.specs.PatrolSteps.{IsLeft};
ghost use Rattle.slot_board.specs.Board.{Ends};
ghost use Rattle.context_plan.specs.PatrolSteps.{visit_place};
ghost use Rattle.context_plan.specs.Scenes.{HasNothing, Left, Start, board_of, sys_of, takers_place};
ghost use Rattle.ctl_syntax.specs.GoalSizes.{most_visits};
ghost use Rattle.task_core.specs.Conditions.{IsConditionOver};

use crate::means::Means;
use crate::patrol_rules::Patrol;
use crate::places::{GUARD, NEAR, NEXT, takers_at};
use crate::rounds::{Way, turn_all, turn_once};
use crate::takers::{SharePlaces, climb, take_first};
use crate::wins::{keep_steps, steps_of};
use dd_sets::SetErr;
use encode_task::Enc;
use slot_board::{Board, Operation, Step};
use task_core::Cond;

/// The states that are left.
pub(crate) const LEFT: usize = 8;
/// Those of them with an action all of whose outcomes are among them.
const STAY: usize = 9;
/// Those from which each visit so far can be made among them.
const KEPT: usize = 10;

/// The place of the states in which a visit is made.
pub(crate) fn visit_at(visit: u32) -> usize
    requires { visit ≤ most_visits }
    ensures { result ≡ visit_place visit }
{
    11 + visit as usize
}

/// Finds from which of the states that are left one can stay among them.
fn find_stay(enc: &mut Enc, board: &mut Board, means: Means) -> Result<(), SetErr>
    requires ready { (start : Start) × (conds : List CondOf) × (r : ℕ)
        × IsLeft start conds (enc.old, board.old.slots.items) r }
    requires actions { means.actions ≡ length enc.old.actions }
    ensures { (start : Start) (conds : List CondOf) (r : ℕ)
        → IsLeft start conds (enc.old, board.old.slots.items) r
        → Left start (enc.new, board.new.slots.items)
        (HasStay start conds (enc.new, board.new.slots.items) r) result }
{
    board.copy_of(enc, GUARD, LEFT)?;
    turn_once(enc, board, means, Way::Shrinking, LEFT)?;
    board.copy_of(enc, STAY, NEXT)
}

/// Finds where a visit is made.
fn meet_visit(enc: &mut Enc, board: &mut Board, visit: &Cond, place: usize) -> Result<(), SetErr>
    requires ready { (start : Start) × (conds : List CondOf) × (r : ℕ) × (i : ℕ)
        × (place ≡ visit_place i) × (i < length conds) × (visit.now ≡ get_or conds i visit.now)
        × HasVisits start conds (enc.old, board.old.slots.items) r i }
    requires visit { IsConditionOver enc.old.sets.vars visit.now }
    ensures { (start : Start) (conds : List CondOf) (r i : ℕ) → place ≡ visit_place i
        → i < length conds → visit.now ≡ get_or conds i visit.now
        → HasVisits start conds (enc.old, board.old.slots.items) r i
        → Left start (enc.new, board.new.slots.items)
        (HasMet start conds (enc.new, board.new.slots.items) r i) result }
{
    board.condition(enc, place, visit)?;
    board.combine(enc, place, Operation::Meet, STAY, place)
}

/// Leaves of the states those from which a visit can be made.
fn keep_visit(
    enc: &mut Enc,
    board: &mut Board,
    means: Means,
    visit: &Cond,
    place: usize,
) -> Result<Vec<Step>, SetErr>
    requires ready { (start : Start) × (conds : List CondOf) × (r : ℕ) × (i : ℕ)
        × (place ≡ visit_place i) × (i < length conds) × (visit.now ≡ get_or conds i visit.now)
        × HasVisits start conds (enc.old, board.old.slots.items) r i }
    requires actions { means.actions ≡ length enc.old.actions }
    requires visit { IsConditionOver enc.old.sets.vars visit.now }
    ensures { (start : Start) (conds : List CondOf) (r i : ℕ) → place ≡ visit_place i
        → i < length conds → visit.now ≡ get_or conds i visit.now
        → HasVisits start conds (enc.old, board.old.slots.items) r i
        → Ends (board_of start) enc.new board.new.slots.items
        (λ steps. HasVisits start conds (enc.new, board.new.slots.items) r (suc i)
        × AreStepsFrom (within_round start conds r) (made_in start conds r i) 0 0 steps.items)
        result }
{
    meet_visit(enc, board, visit, place)?;
    let steps = turn_all(enc, board, means, Way::Growing, place)?;
    board.combine(enc, KEPT, Operation::Meet, KEPT, NEAR)?;
    Ok(steps)
}

/// Makes a round: finds from which of the states that are left every visit can be made among them.
fn keep_all(
    enc: &mut Enc,
    board: &mut Board,
    means: Means,
    visits: &[Cond],
) -> Result<Vec<Vec<Step>>, SetErr>
    requires ready { (start : Start) × (r : ℕ)
        × IsLeft start visits.now (enc.old, board.old.slots.items) r }
    requires actions { means.actions ≡ length enc.old.actions }
    requires visits { IsPatrolOver enc.old.sets.vars visits.now }
    ensures { (start : Start) (r : ℕ)
        → IsLeft start visits.now (enc.old, board.old.slots.items) r
        → Ends (board_of start) enc.new board.new.slots.items
        (λ notes. HasVisits start visits.now (enc.new, board.new.slots.items) r
        (length visits.now)
        × NotedVisits start visits.now r (length visits.now) notes.items) result }
{
    find_stay(enc, board, means)?;
    board.copy_of(enc, KEPT, LEFT)?;
    let mut notes = Vec::new(means.alloc);
    for i in 0..visits.len() as u32 {
        let steps = keep_visit(enc, board, means, &visits[i as usize], visit_at(i))?;
        keep_steps(&mut notes, steps)?;
    }
    Ok(notes)
}

/// Makes the first round, on all states.
fn keep_first(
    enc: &mut Enc,
    board: &mut Board,
    means: Means,
    visits: &[Cond],
) -> Result<Vec<Vec<Step>>, SetErr>
    requires ready { (start : Start) × (start.stages ≡ length visits.now)
        × HasNothing start (enc.old, board.old.slots.items) × PatrolFits start visits.now }
    requires actions { means.actions ≡ length enc.old.actions }
    requires visits { IsPatrolOver enc.old.sets.vars visits.now }
    ensures { (start : Start) → start.stages ≡ length visits.now
        → HasNothing start (enc.old, board.old.slots.items) → PatrolFits start visits.now
        → Ends (board_of start) enc.new board.new.slots.items
        (λ notes. HasVisits start visits.now (enc.new, board.new.slots.items) 0
        (length visits.now)
        × NotedVisits start visits.now 0 (length visits.now) notes.items) result }
{
    let space = enc.space();
    board.copy(enc, LEFT, space)?;
    keep_all(enc, board, means, visits)
}

fn keep_more(
    enc: &mut Enc,
    board: &mut Board,
    means: Means,
    visits: &[Cond],
) -> Result<Vec<Vec<Step>>, SetErr>
    requires ready { (start : Start) × (r : ℕ) × HasVisits start visits.now
        (enc.old, board.old.slots.items) r (length visits.now) }
    requires actions { means.actions ≡ length enc.old.actions }
    requires visits { IsPatrolOver enc.old.sets.vars visits.now }
    ensures { (start : Start) (r : ℕ) → HasVisits start visits.now
        (enc.old, board.old.slots.items) r (length visits.now)
        → Ends (board_of start) enc.new board.new.slots.items
        (λ notes. HasVisits start visits.now (enc.new, board.new.slots.items) (suc r)
        (length visits.now)
        × NotedVisits start visits.now (suc r) (length visits.now) notes.items) result }
{
    board.copy_of(enc, LEFT, KEPT)?;
    keep_all(enc, board, means, visits)
}

/// Whether a round lost an initial state.
fn loses_initial(enc: &mut Enc, board: &Board) -> Result<bool, SetErr>
    requires ready { (start : Start) × (conds : List CondOf) × (r : ℕ) × HasVisits start conds
        (enc.old, board.now.slots.items) r (length conds) }
    ensures left { (start : Start) (conds : List CondOf) (r : ℕ) → HasVisits start conds
        (enc.old, board.now.slots.items) r (length conds)
        → Left start (enc.new, board.now.slots.items)
        (HasVisits start conds (enc.new, board.now.slots.items) r (length conds)) result }
    ensures lost { (start : Start) (conds : List CondOf) (r : ℕ) → HasVisits start conds
        (enc.old, board.now.slots.items) r (length conds)
        → IfOk result (λ lost. lost ≡ true
        → covers_patrol (sys_of start) (visit_sets conds) ≡ false) }
{
    let held = board.covers_initial(enc, KEPT)?;
    Ok(!held)
}

/// Makes rounds until nothing changes: the steps towards each visit in the last one. Or none, where
/// an initial state is lost.
pub(crate) fn find_left(
    enc: &mut Enc,
    board: &mut Board,
    means: Means,
    visits: &[Cond],
) -> Result<Option<Vec<Vec<Step>>>, SetErr>
    requires ready { (start : Start) × (start.stages ≡ length visits.now)
        × HasNothing start (enc.old, board.old.slots.items) × PatrolFits start visits.now }
    requires actions { means.actions ≡ length enc.old.actions }
    requires visits { IsPatrolOver enc.old.sets.vars visits.now }
    ensures { (start : Start) → start.stages ≡ length visits.now
        → HasNothing start (enc.old, board.old.slots.items) → PatrolFits start visits.now
        → Ends (board_of start) enc.new board.new.slots.items
        (FoundNotes start visits.now (enc.new, board.new.slots.items)) result }
{
    let mut notes = keep_first(enc, board, means, visits)?;
    while !board.is_same(enc, KEPT, LEFT) {
        let lost = loses_initial(enc, board)?;
        if lost {
            return Ok(None);
        }
        notes = keep_more(enc, board, means, visits)?;
    }
    Ok(Some(notes))
}

/// Has the actions towards a visit taken, and after it those that stay among the states of the plan.
fn take_visit(
    enc: &mut Enc,
    board: &mut Board,
    actions: u32,
    steps: &[Step],
    at: SharePlaces,
) -> Result<(), SetErr>
    requires ready { (start : Start) × (conds : List CondOf) × (i : ℕ) × (at.near ≡ 8)
        × (at.rest ≡ visit_place i)
        × (at.takers ≡ takers_place (action_count start.task) start.stages i)
        × (i < start.stages) × HasPatrol start conds (enc.old, board.old.slots.items) i
        × (covers_patrol (sys_of start) (visit_sets conds) ≡ true)
        × AreStepsFrom (guarded start (patrol_set (sys_of start) (visit_sets conds)))
        (made_at_last start conds i) 0 0 steps.now }
    requires actions { actions ≡ length enc.old.actions }
    ensures { (start : Start) (conds : List CondOf) (i : ℕ) → at.near ≡ 8
        → at.rest ≡ visit_place i
        → at.takers ≡ takers_place (action_count start.task) start.stages i → i < start.stages
        → HasPatrol start conds (enc.old, board.old.slots.items) i
        → covers_patrol (sys_of start) (visit_sets conds) ≡ true
        → AreStepsFrom (guarded start (patrol_set (sys_of start) (visit_sets conds)))
        (made_at_last start conds i) 0 0 steps.now
        → Left start (enc.new, board.new.slots.items)
        (HasPatrol start conds (enc.new, board.new.slots.items) (suc i)) result }
{
    take_first(enc, board, actions, at)?;
    climb(enc, board, steps, at.rest, at.takers)
}

/// Has the actions of all contexts taken.
pub(crate) fn take_visits(
    enc: &mut Enc,
    board: &mut Board,
    patrol: Patrol,
    notes: &[Vec<Step>],
) -> Result<(), SetErr>
    requires ready { (start : Start) × (conds : List CondOf) × (start.stages ≡ patrol.visits)
        × HasPatrol start conds (enc.old, board.old.slots.items) 0
        × (covers_patrol (sys_of start) (visit_sets conds) ≡ true)
        × NotedLast start conds notes.now }
    requires actions { patrol.actions ≡ length enc.old.actions }
    requires few { patrol.visits ≤ most_visits }
    ensures { (start : Start) (conds : List CondOf) → start.stages ≡ patrol.visits
        → HasPatrol start conds (enc.old, board.old.slots.items) 0
        → covers_patrol (sys_of start) (visit_sets conds) ≡ true
        → NotedLast start conds notes.now
        → Left start (enc.new, board.new.slots.items)
        (HasPatrol start conds (enc.new, board.new.slots.items) start.stages) result }
{
    for i in 0..patrol.visits {
        let at = SharePlaces {
            near: LEFT,
            rest: visit_at(i),
            takers: takers_at(patrol.actions, patrol.visits, i),
        };
        take_visit(enc, board, patrol.actions, steps_of(notes, i as usize), at)?;
    }
    Ok(())
}
