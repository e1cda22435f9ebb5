//! The planner for patrol goals.

ghost use Rattle.std.specs.Prelude.{◌≡◌, ℕ, ◌+◌, ◌*◌, ◌≤◌, List, [], length, IfOk, IsErrOf};
ghost use Rattle.plan_theory.specs.Patrols.{HasPatrol as HasGoal};
ghost use Rattle.plan_theory.specs.PatrolPlans.{HasNoPatrolPlan};
ghost use Rattle.plan_theory.specs.PatrolPrinted.{patrol_rules};
ghost use Rattle.dd_sets.specs.Frames.{Owns};
ghost use Rattle.dd_sets.specs.Rooms.{NoRoom};
ghost use Rattle.encode_task.specs.Made.{MadeOf};
ghost use Rattle.plan_rules.specs.Denoted.{denoted_contexts};
ghost use Rattle.plan_rules.specs.Plans.{IsAutomatonOf};
ghost use Rattle.plan_rules.specs.Rules.{context_rules_of};
ghost use Rattle.task_core.specs.ContextPlans.{Configuration, IsComplete, IsInitial};
ghost use Rattle.task_core.specs.Tasks.{action_count, fluent_count, system_of};
ghost use Rattle.task_core.specs.declared.conditions.Cond.{Cond as CondOf};
ghost use Rattle.task_core.specs.declared.tasks.Task.{Task as TaskOf};
ghost use Rattle.context_plan.specs.Chains.{IsPatrolOver, visit_sets};
ghost use Rattle.context_plan.specs.Found.{IfNoPlan, IfPlan};
ghost use Rattle.context_plan.specs.PatrolAnswers.{IsPatrolAnswer, IsPatrolPlanOf, PatrolEnds};
ghost use Rattle.context_plan.specs.Noted.{NotedLast};
ghost use Rattle.context_plan.specs.PatrolSizes.{PatrolFits};
ghost use Rattle.context_plan.specs.PatrolSteps.{HasPatrol};
ghost use Rattle.context_plan.specs.PatrolWorkingSets.{BoundsPatrolSets};
ghost use Rattle.context_plan.specs.Scenes.{HasNothing, IsAt, Left, Start};
ghost use Rattle.plan_theory.specs.Patrols.{covers_patrol};
ghost use Rattle.context_plan.specs.Scenes.{sys_of};
ghost use Rattle.std.specs.Prelude.{true};
ghost use Rattle.ctl_syntax.specs.GoalSizes.{most_visits};

use crate::found::FoundAuto;
use crate::means::Means;
use crate::patrol_rules::{Patrol, list_visits};
use crate::places::places;
use crate::visits::{LEFT, find_left, take_visits};
use dd_sets::SetErr;
use encode_task::Enc;
use plan_rules::AutoPlan;
use slot_board::{Board, Step};
use std::alloc::Global;
use task_core::{Cond, Task};

/// The plan that a board has in sets of states, once the initial states are among them.
fn write_visits(
    alloc: Global,
    enc: &mut Enc,
    board: &mut Board,
    patrol: Patrol,
    notes: &[Vec<Step>],
) -> Result<AutoPlan, SetErr>
    requires ready { (start : Start) × (conds : List CondOf) × (start.stages ≡ patrol.visits)
        × HasPatrol start conds (enc.old, board.old.slots.items) 0
        × (covers_patrol (sys_of start) (visit_sets conds) ≡ true)
        × NotedLast start conds notes.now }
    requires actions { patrol.actions ≡ length enc.old.actions }
    requires few { patrol.visits ≤ most_visits }
    ensures left { (start : Start) (conds : List CondOf) → start.stages ≡ patrol.visits
        → HasPatrol start conds (enc.old, board.old.slots.items) 0
        → covers_patrol (sys_of start) (visit_sets conds) ≡ true
        → NotedLast start conds notes.now
        → Left start (enc.new, board.new.slots.items)
        (IsAt start (enc.new, board.new.slots.items)) result }
    ensures plan { (start : Start) (conds : List CondOf) → start.stages ≡ patrol.visits
        → HasPatrol start conds (enc.old, board.old.slots.items) 0
        → covers_patrol (sys_of start) (visit_sets conds) ≡ true
        → NotedLast start conds notes.now
        → IfOk result (IsPatrolPlanOf start.task (visit_sets conds)) }
{
    take_visits(enc, board, patrol, notes)?;
    let mut rules = Vec::new(alloc);
    list_visits(enc, board, &mut rules, patrol)?;
    Ok(AutoPlan {
        contexts: patrol.visits,
        rules,
    })
}

/// Searches with the slots of a board, which stay.
fn search_visits(
    alloc: Global,
    enc: &mut Enc,
    board: &mut Board,
    actions: u32,
    visits: &[Cond],
) -> Result<FoundAuto, SetErr>
    requires ready { (start : Start) × (start.stages ≡ length visits.now)
        × HasNothing start (enc.old, board.old.slots.items) × PatrolFits start visits.now }
    requires actions { actions ≡ length enc.old.actions }
    requires visits { IsPatrolOver enc.old.sets.vars visits.now }
    ensures { (start : Start) → start.stages ≡ length visits.now
        → HasNothing start (enc.old, board.old.slots.items) → PatrolFits start visits.now
        → PatrolEnds start (enc.new, board.new.slots.items) (visit_sets visits.now) result }
{
    let count = count_of(visits);
    let Some(notes) = find_left(enc, board, Means { alloc, actions }, visits)? else {
        return Ok(FoundAuto::NoPlan);
    };
    if !board.covers_initial(enc, LEFT)? {
        return Ok(FoundAuto::NoPlan);
    }
    let patrol = Patrol {
        actions,
        visits: count,
    };
    let plan = write_visits(alloc, enc, board, patrol, &notes)?;
    Ok(FoundAuto::Plan(plan))
}

fn count_of(visits: &[Cond]) -> u32
    requires { length visits.now ≤ most_visits }
    ensures { result ≡ length visits.now }
{
    visits.len() as u32
}

/// The same on a board of its own, whose slots are ended.
fn find_patrol(
    alloc: Global,
    task: &Task,
    enc: &mut Enc,
    visits: &[Cond],
) -> Result<FoundAuto, SetErr>
    requires made { MadeOf task.now enc.old }
    requires visits { IsPatrolOver (fluent_count task.now) visits.now }
    ensures answer { IfOk result (IsPatrolAnswer task.now (visit_sets visits.now)) }
    ensures full { IsErrOf result SetErr.Full → (w : ℕ) → BoundsPatrolSets w task.now visits.now
        → NoRoom w (action_count task.now * (length visits.now + 3) + 8 * length visits.now + 236)
        16 enc.old.sets enc.new.sets }
    ensures slots { Owns enc.old.sets enc.new.sets [] }
    ensures same_slots { enc.new ≡ record enc.old { sets = enc.new.sets } }
{
    let actions = task.actions.len() as u32;
    let count = count_of(visits);
    let mut board = Board::new(alloc, enc, places(actions, count))?;
    let found = search_visits(alloc, enc, &mut board, actions, visits);
    board.close(enc);
    found
}

/// A plan for a patrol goal, that each of some conditions comes about again and again, or that there
/// is none: no plan with contexts, whatever its contexts are and however many, goes on wherever it
/// leads and has the goal at each initial configuration.
///
/// It works on sets of states: a greatest set over least ones. Each round finds, for each visit,
/// from which of the states that are left it can be made among them for certain, by rounds of their
/// own, and leaves the states from which every one can. There no round has a preimage for an action
/// that can be executed only in states that are found already. Where the initial states are among
/// those that are left at last, each of them takes in each context the least-numbered action that
/// leads nearer to the visit, or, where it is made, that stays. The plan has a context for each
/// visit and goes on to the next one where the visit is made, after the last one to the first. Its
/// rules are the cubes of these sets: contexts in rising number, for each its next contexts in
/// rising number, and for each of these its actions.
///
/// There are 1 to 8 visits, and each condition names the task's fluents alone and is at most 200
/// deep. `Full` comes only where the table holds as many nodes as it may, and its limit is tight with
/// at most so many sets of the search's own: three for each action, one for each action and visit,
/// eight for each visit and 236 more. By any width of the sets that it makes (`PatrolWorkingSets`) all
/// of them are small, but for 16, which are the meet, join or difference of two small ones. All slots
/// of the search are ended on every exit.
pub fn plan_patrol(
    alloc: Global,
    task: &Task,
    enc: &mut Enc,
    visits: &[Cond],
) -> Result<FoundAuto, SetErr>
    requires made { MadeOf task.now enc.old }
    requires visits { IsPatrolOver (fluent_count task.now) visits.now }
    ensures contexts { IfOk result (λ found. IfPlan found (λ plan. plan.contexts
        ≡ length visits.now)) }
    ensures printed { IfOk result (λ found. IfPlan found (λ plan. context_rules_of plan
        ≡ patrol_rules (system_of task.now) (visit_sets visits.now))) }
    ensures in_task { IfOk result (λ found. IfPlan found (λ plan. IsAutomatonOf
        (fluent_count task.now) (action_count task.now) plan.contexts (context_rules_of plan))) }
    ensures complete { IfOk result (λ found. IfPlan found (λ plan. IsComplete (system_of task.now)
        (denoted_contexts (context_rules_of plan)))) }
    ensures solves { let sys = system_of task.now in
        IfOk result (λ found. IfPlan found (λ plan. (x : Configuration) → IsInitial sys x
        → HasGoal sys (denoted_contexts (context_rules_of plan)) (visit_sets visits.now) x)) }
    ensures no_plan { IfOk result (λ found. IfNoPlan found (HasNoPatrolPlan
        (system_of task.now) (visit_sets visits.now))) }
    ensures full { IsErrOf result SetErr.Full → (w : ℕ) → BoundsPatrolSets w task.now visits.now
        → NoRoom w (action_count task.now * (length visits.now + 3) + 8 * length visits.now + 236)
        16 enc.old.sets enc.new.sets }
    ensures slots { Owns enc.old.sets enc.new.sets [] }
    ensures same_slots { enc.new ≡ record enc.old { sets = enc.new.sets } }
    ensures made { (task : TaskOf) → MadeOf task enc.old → MadeOf task enc.new }
{
    find_patrol(alloc, task, enc, visits)
}
