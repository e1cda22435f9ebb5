//! The planner for until-chains.

ghost use Rattle.std.specs.Prelude.{◌≡◌, ℕ, suc, ◌+◌, ◌*◌, ◌<◌, ◌≤◌, [], length, IfNone, IfOk};
ghost use Rattle.std.specs.Prelude.{IfSome, IsErrOf, OnErr};
ghost use Rattle.std.specs.List.{list_all};
ghost use Rattle.plan_theory.specs.UntilChains.{HasUntil, UntilSets};
ghost use Rattle.plan_theory.specs.UntilPlans.{HasNoUntilPlan};
ghost use Rattle.plan_theory.specs.UntilPrinted.{until_rules};
ghost use Rattle.dd_sets.specs.Frames.{Owns};
ghost use Rattle.dd_sets.specs.Rooms.{NoRoom};
ghost use Rattle.encode_task.specs.Made.{MadeOf};
ghost use Rattle.plan_rules.specs.Denoted.{denoted_contexts};
ghost use Rattle.plan_rules.specs.Plans.{IsAutomatonOf};
ghost use Rattle.plan_rules.specs.Rules.{context_rules_of};
ghost use Rattle.slot_board.specs.Board.{HasNoRoom};
ghost use Rattle.task_core.specs.ContextPlans.{Configuration, IsComplete, IsInitial};
ghost use Rattle.task_core.specs.Tasks.{action_count, fluent_count, system_of};
ghost use Rattle.task_core.specs.declared.tasks.Task.{Task as TaskOf};
ghost use Rattle.context_plan.specs.Answers.{Ends, IsAnswer, IsPlanOf};
ghost use Rattle.context_plan.specs.Chains.{IsUntilOver, until_sets};
ghost use Rattle.context_plan.specs.Found.{IfNoPlan, IfPlan};
ghost use Rattle.context_plan.specs.Scenes.{HasNothing, IsAt, Left, Start};
ghost use Rattle.context_plan.specs.Scenes.{board_of};
ghost use Rattle.context_plan.specs.Sizes.{SearchFits};
ghost use Rattle.context_plan.specs.Tables.{HasTable, start_of};
ghost use Rattle.context_plan.specs.WorkingSets.{BoundsUntilSets};
ghost use Rattle.ctl_syntax.specs.GoalSizes.{most_stages};

use crate::found::FoundAuto;
use crate::means::Means;
use crate::places::{places, win_at};
use crate::rules::{Chain, list_all};
use crate::takers::take_all;
use crate::wins::win_all;
use ctl_syntax::UntilChain;
use dd_sets::SetErr;
use encode_task::Enc;
use plan_rules::AutoPlan;
use slot_board::Board;
use std::alloc::Global;
use task_core::Task;

/// Searches with the slots of a board, which stay: whether there is a plan.
fn search(
    enc: &mut Enc,
    board: &mut Board,
    means: Means,
    chain: &UntilChain,
) -> Result<bool, SetErr>
    requires ready { (start : Start) × (start.stages ≡ length chain.now.stages.items)
        × HasNothing start (enc.old, board.old.slots.items) × SearchFits start chain.now }
    requires actions { means.actions ≡ length enc.old.actions }
    requires chain { IsUntilOver enc.old.sets.vars chain.now }
    ensures { (start : Start) → start.stages ≡ length chain.now.stages.items
        → HasNothing start (enc.old, board.old.slots.items) → SearchFits start chain.now
        → Ends start (enc.new, board.new.slots.items) (until_sets chain.now) result }
{
    let notes = win_all(enc, board, means, chain)?;
    if !board.covers_initial(enc, win_at(0))? {
        return Ok(false);
    }
    take_all(enc, board, means.actions, &notes, chain)?;
    Ok(true)
}

/// The plan for an until-chain in sets of states: for each context its states, and those that take
/// each action towards its stage, in slots at places of a board, which the caller closes. From these
/// `rule_sets` makes, for a context and a next one, the states in which each action is taken: for
/// all contexts at once they would be more slots than the rule for `Full` allows. Or that there is
/// no plan: no plan with contexts, whatever its contexts are and however many, goes on wherever it
/// leads and has the until-chain at each initial configuration.
///
/// It works on sets of states (Pistore and Traverso 2001). First it finds where the condition at
/// the end can be kept for ever: a set that shrinks, round by round, to the states with an action
/// all of whose outcomes stay in it. Then, from the last stage back, it finds where the stage is
/// met and the rest can be had, and from where such a state is reached for certain, in states of
/// the stage's guard until then: a set that grows, round by round, by the states of the guard with
/// an action all of whose outcomes lie in it. Where the initial states are among those of the first
/// stage, it makes the steps of these rounds that changed something once more, and each new state
/// takes its least-numbered action. The plan has a context for each stage and one for the end; in
/// each it turns to the first stage, from the context's own on, that isn't met. The time grows with
/// the rounds, the stages and the actions, and not with the number of states. A round has no preimage
/// for an action that can be executed only in states that are found already.
///
/// An until-chain has at most 32 stages, and each of its conditions names the task's fluents alone
/// and is at most 200 deep. `Full` comes only where the table holds as many nodes as it may, and its
/// limit is tight with at most so many sets of the search's own: three for each action, one for each
/// action and stage, eight for each stage and 236 more. By any width of the sets that it makes
/// (`WorkingSets`) all of them are small, but for 16, which are the meet, join or difference of two
/// small ones. Where no board is answered, all slots of the search are ended.
pub fn until_takers(
    alloc: Global,
    task: &Task,
    enc: &mut Enc,
    chain: &UntilChain,
) -> Result<Option<Board>, SetErr>
    requires made { MadeOf task.now enc.old }
    requires chain { IsUntilOver (fluent_count task.now) chain.now }
    ensures table { (made : MadeOf task.now enc.old) (w : ℕ) (wide : BoundsUntilSets w task.now chain.now)
        → IfOk result (λ found. IfSome found (λ board. HasTable
        (start_of task.now enc.old made (length chain.now.stages.items) w wide.fluents)
        (enc.new, board.slots.items) (until_sets chain.now))) }
    ensures no_plan { IfOk result (λ found. IfNone found (HasNoUntilPlan
        (system_of task.now) (until_sets chain.now))) }
    ensures full { IsErrOf result SetErr.Full → (w : ℕ) → BoundsUntilSets w task.now chain.now
        → NoRoom w (action_count task.now * (length chain.now.stages.items + 3)
        + 8 * length chain.now.stages.items + 236) 16 enc.old.sets enc.new.sets }
    ensures closed { IfOk result (λ found. IfNone found (Owns enc.old.sets enc.new.sets [])) }
    ensures refused { OnErr result (Owns enc.old.sets enc.new.sets []) }
    ensures same_slots { enc.new ≡ record enc.old { sets = enc.new.sets } }
{
    let actions = task.actions.len() as u32;
    let mut board = Board::new(alloc, enc, places(actions, chain.stages.len() as u32))?;
    match search(enc, &mut board, Means { alloc, actions }, chain) {
        Ok(true) => Ok(Some(board)),
        Ok(false) => {
            board.close(enc);
            Ok(None)
        }
        Err(refusal) => {
            board.close(enc);
            Err(refusal)
        }
    }
}

/// The plan that a board has in sets of states, whose slots stay.
fn write(
    alloc: Global,
    enc: &mut Enc,
    board: &mut Board,
    actions: u32,
    stages: u32,
) -> Result<AutoPlan, SetErr>
    requires ready { (start : Start) × (chain : UntilSets) × (start.stages ≡ stages)
        × HasTable start (enc.old, board.old.slots.items) chain }
    requires actions { actions ≡ length enc.old.actions }
    requires few { stages ≤ most_stages }
    ensures left { (start : Start) (chain : UntilSets) → start.stages ≡ stages
        → HasTable start (enc.old, board.old.slots.items) chain
        → Left start (enc.new, board.new.slots.items)
        (IsAt start (enc.new, board.new.slots.items)) result }
    ensures plan { (start : Start) (chain : UntilSets) → start.stages ≡ stages
        → HasTable start (enc.old, board.old.slots.items) chain
        → IfOk result (IsPlanOf start.task chain) }
{
    let mut rules = Vec::new(alloc);
    list_all(enc, board, &mut rules, Chain { actions, stages })?;
    Ok(AutoPlan {
        contexts: stages + 1,
        rules,
    })
}

/// The same, and the slots are ended.
fn close_as_plan(
    alloc: Global,
    enc: &mut Enc,
    board: Board,
    actions: u32,
    stages: u32,
) -> Result<AutoPlan, SetErr>
    requires ready { (start : Start) × (chain : UntilSets) × (start.stages ≡ stages)
        × HasTable start (enc.old, board.slots.items) chain }
    requires actions { actions ≡ length enc.old.actions }
    requires few { stages ≤ most_stages }
    ensures plan { (start : Start) (chain : UntilSets) → start.stages ≡ stages
        → HasTable start (enc.old, board.slots.items) chain
        → IfOk result (IsPlanOf start.task chain) }
    ensures full { (start : Start) (chain : UntilSets) → start.stages ≡ stages
        → HasTable start (enc.old, board.slots.items) chain
        → IsErrOf result SetErr.Full → HasNoRoom (board_of start) enc.new }
    ensures slots { (start : Start) (chain : UntilSets) → start.stages ≡ stages
        → HasTable start (enc.old, board.slots.items) chain
        → Owns start.enc.sets enc.new.sets [] }
    ensures same_slots { (start : Start) (chain : UntilSets) → start.stages ≡ stages
        → HasTable start (enc.old, board.slots.items) chain
        → enc.new ≡ record start.enc { sets = enc.new.sets } }
{
    let mut board = board;
    let plan = write(alloc, enc, &mut board, actions, stages);
    board.close(enc);
    plan
}

/// The plan in sets of states, and then its cubes.
fn find_until(
    alloc: Global,
    task: &Task,
    enc: &mut Enc,
    chain: &UntilChain,
) -> Result<FoundAuto, SetErr>
    requires made { MadeOf task.now enc.old }
    requires chain { IsUntilOver (fluent_count task.now) chain.now }
    ensures answer { IfOk result (IsAnswer task.now (until_sets chain.now)) }
    ensures full { IsErrOf result SetErr.Full → (w : ℕ) → BoundsUntilSets w task.now chain.now
        → NoRoom w (action_count task.now * (length chain.now.stages.items + 3)
        + 8 * length chain.now.stages.items + 236) 16 enc.old.sets enc.new.sets }
    ensures slots { Owns enc.old.sets enc.new.sets [] }
    ensures same_slots { enc.new ≡ record enc.old { sets = enc.new.sets } }
{
    let actions = task.actions.len() as u32;
    let stages = chain.stages.len() as u32;
    match until_takers(alloc, task, enc, chain)? {
        Some(board) => {
            let plan = close_as_plan(alloc, enc, board, actions, stages)?;
            Ok(FoundAuto::Plan(plan))
        }
        None => Ok(FoundAuto::NoPlan),
    }
}

/// A plan for an until-chain, or that there is none: no plan with contexts, whatever its contexts are
/// and however many, goes on wherever it leads and has the until-chain at each initial
/// configuration.
///
/// Its rules are the cubes of the sets that `until_takers` and `rule_sets` find: contexts in rising
/// number, for each its next contexts, and for each of these its actions. Of until-chains and of
/// `Full` the same holds as there. All slots of the search are ended on every exit.
pub fn plan_until(
    alloc: Global,
    task: &Task,
    enc: &mut Enc,
    chain: &UntilChain,
) -> Result<FoundAuto, SetErr>
    requires made { MadeOf task.now enc.old }
    requires chain { IsUntilOver (fluent_count task.now) chain.now }
    ensures contexts { IfOk result (λ found. IfPlan found (λ plan. plan.contexts
        ≡ suc (length chain.now.stages.items))) }
    ensures printed { IfOk result (λ found. IfPlan found (λ plan. context_rules_of plan
        ≡ until_rules (system_of task.now) (until_sets chain.now))) }
    ensures in_task { IfOk result (λ found. IfPlan found (λ plan. IsAutomatonOf
        (fluent_count task.now) (action_count task.now) plan.contexts (context_rules_of plan))) }
    ensures complete { IfOk result (λ found. IfPlan found (λ plan. IsComplete (system_of task.now)
        (denoted_contexts (context_rules_of plan)))) }
    ensures solves { let sys = system_of task.now in
        IfOk result (λ found. IfPlan found (λ plan. (x : Configuration) → IsInitial sys x
        → HasUntil sys (denoted_contexts (context_rules_of plan)) (until_sets chain.now) x)) }
    ensures no_plan { IfOk result (λ found. IfNoPlan found (HasNoUntilPlan
        (system_of task.now) (until_sets chain.now))) }
    ensures full { IsErrOf result SetErr.Full → (w : ℕ) → BoundsUntilSets w task.now chain.now
        → NoRoom w (action_count task.now * (length chain.now.stages.items + 3)
        + 8 * length chain.now.stages.items + 236) 16 enc.old.sets enc.new.sets }
    ensures slots { Owns enc.old.sets enc.new.sets [] }
    ensures same_slots { enc.new ≡ record enc.old { sets = enc.new.sets } }
    ensures made { (task : TaskOf) → MadeOf task enc.old → MadeOf task enc.new }
{
    find_until(alloc, task, enc, chain)
}
