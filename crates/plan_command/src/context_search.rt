//! The search for the plan with contexts for a goal.

ghost use Rattle.command_base.specs.Words.{IsNodeLimit};
ghost use Rattle.dd_sets.specs.Frames.{Owns};
ghost use Rattle.dd_sets.specs.Rooms.{NoRoom};
ghost use Rattle.encode_task.specs.Made.{MadeOf};
ghost use Rattle.context_plan.specs.Chains.{IsPatrolOver, IsUntilOver, until_sets, visit_sets};
ghost use Rattle.context_plan.specs.PatrolWorkingSets.{BoundsPatrolSets};
ghost use Rattle.context_plan.specs.WorkingSets.{BoundsUntilSets};
ghost use Rattle.plan_command.specs.Enough.{BoundsGoalSets, IsTightForGoal};
ghost use Rattle.plan_command.specs.FoundGoals.{IsGoalSearched, IsGoalSearchedFrom};
ghost use Rattle.plan_command.specs.GoalConditions.{IsGoalOver, sets_of_goal};
ghost use Rattle.plan_command.specs.GoalSets.{of_patrol, of_until};
ghost use Rattle.std.specs.Prelude.{◌≡◌, ◌+◌, ◌*◌, [], IsErrOf, length, ℕ};
ghost use Rattle.task_core.specs.Tasks.{action_count, fluent_count, initial_states};
ghost use Rattle.task_sets.specs.FullTables.{IsTightToEncode};
ghost use Rattle.ctl_syntax.specs.GoalSizes.{count_of};

use context_plan::{FoundAuto, plan_patrol, plan_until};
use ctl_syntax::{ContextGoal, UntilChain};
use dd_sets::{SetErr, no_room_is_small, no_room_is_tight, tight_is_monotone};
use encode_task::{Enc, kept_sets_bound_nodes};
use std::alloc::Global;
use task_core::{Cond, Task};
use task_sets::{SetSearch, search_in_tries};

/// The search for the plan with contexts for a goal, in a table for so many nodes.
#[derive(Clone, Copy)]
pub(crate) struct GoalSearch<'a> {
    pub(crate) goal: &'a ContextGoal,
    pub(crate) nodes: u32,
}

impl SetSearch for GoalSearch<'_> {
    ghost use Rattle.plan_command.specs.Enough.{LacksGoalRoom};
    ghost use Rattle.plan_command.specs.FoundGoals.{IsGoalSearched};
    ghost use Rattle.plan_command.specs.GoalConditions.{IsGoalOver, sets_of_goal};
    ghost use Rattle.std.specs.Prelude.{Ok};
    ghost use Rattle.task_core.specs.Tasks.{fluent_count};

    type Found = FoundAuto;

    ghost nodes = { λ self. self.nodes };

    ghost fits = { λ self task. IsGoalOver (fluent_count task) self.goal.now };

    ghost finds = { λ self task found. IsGoalSearched task (sets_of_goal self.goal.now) (Ok found) };

    ghost lacks_room = { λ self task. LacksGoalRoom self.goal.now task };

    fn nodes(&self) -> u32 {
        self.nodes
    }

    fn find(&self, alloc: Global, task: &Task, enc: &mut Enc) -> Result<FoundAuto, SetErr> {
        find_contexts(alloc, task, enc, self.goal)
    }
}

/// What is found for a task and a goal; `None` where there is no initial state. It is the same over
/// variables in any order.
pub(crate) fn search_goal(
    alloc: Global,
    nodes: u32,
    task: &Task,
    goal: &ContextGoal,
) -> Result<Option<FoundAuto>, SetErr>
    requires room { IsNodeLimit nodes }
    requires goal { IsGoalOver (fluent_count task.now) goal.now }
    ensures found { IsGoalSearchedFrom task.now (sets_of_goal goal.now) result }
    ensures full { IsErrOf result SetErr.Full → IsTightForGoal goal.now nodes task.now }
    ensures not_begun { IsErrOf result SetErr.Full → initial_states task.now ≡ []
        → IsTightToEncode nodes task.now }
{
    // These do nothing: that few nodes are too few for more sets, and for sets of their sizes, rests
    // on what they promise.
    tight_is_monotone();
    no_room_is_tight();
    no_room_is_small();
    kept_sets_bound_nodes();
    search_in_tries(alloc, task, &GoalSearch { goal, nodes })
}

/// The plan with contexts of a task for a goal, over the task's sets.
fn find_contexts(
    alloc: Global,
    task: &Task,
    enc: &mut Enc,
    goal: &ContextGoal,
) -> Result<FoundAuto, SetErr>
    requires made { MadeOf task.now enc.old }
    requires goal { IsGoalOver (fluent_count task.now) goal.now }
    ensures found { IsGoalSearched task.now (sets_of_goal goal.now) result }
    ensures full { let parts = count_of goal.now in
        IsErrOf result SetErr.Full → (w : ℕ) → BoundsGoalSets goal.now task.now w
        → NoRoom w (action_count task.now * (parts + 3) + 8 * parts + 236) 16
        enc.old.sets enc.new.sets }
    ensures still_made { MadeOf task.now enc.new }
    ensures slots { Owns enc.old.sets enc.new.sets [] }
{
    match goal {
        ContextGoal::Until(chain) => find_until(alloc, task, enc, chain),
        ContextGoal::Patrol(visits) => find_patrol(alloc, task, enc, visits.as_slice()),
    }
}

/// The same for an until-chain.
fn find_until(
    alloc: Global,
    task: &Task,
    enc: &mut Enc,
    chain: &UntilChain,
) -> Result<FoundAuto, SetErr>
    requires made { MadeOf task.now enc.old }
    requires chain { IsUntilOver (fluent_count task.now) chain.now }
    ensures found { IsGoalSearched task.now (of_until (until_sets chain.now)) result }
    ensures full { let parts = length chain.now.stages.items in
        IsErrOf result SetErr.Full → (w : ℕ) → BoundsUntilSets w task.now chain.now
        → NoRoom w (action_count task.now * (parts + 3) + 8 * parts + 236) 16
        enc.old.sets enc.new.sets }
    ensures still_made { MadeOf task.now enc.new }
    ensures slots { Owns enc.old.sets enc.new.sets [] }
{
    plan_until(alloc, task, enc, chain)
}

/// The same for a patrol goal.
fn find_patrol(
    alloc: Global,
    task: &Task,
    enc: &mut Enc,
    visits: &[Cond],
) -> Result<FoundAuto, SetErr>
    requires made { MadeOf task.now enc.old }
    requires visits { IsPatrolOver (fluent_count task.now) visits.now }
    ensures found { IsGoalSearched task.now (of_patrol (visit_sets visits.now)) result }
    ensures full { let parts = length visits.now in
        IsErrOf result SetErr.Full → (w : ℕ) → BoundsPatrolSets w task.now visits.now
        → NoRoom w (action_count task.now * (parts + 3) + 8 * parts + 236) 16
        enc.old.sets enc.new.sets }
    ensures still_made { MadeOf task.now enc.new }
    ensures slots { Owns enc.old.sets enc.new.sets [] }
{
    plan_patrol(alloc, task, enc, visits)
}
