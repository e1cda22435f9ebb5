//! The search for a plan whose actions may be tried again.

ghost use Rattle.command_base.specs.Words.{IsNodeLimit};
ghost use Rattle.control_command.specs.FairJudged.{IsFairlyFound};
ghost use Rattle.dd_sets.specs.Frames.{Owns};
ghost use Rattle.dd_sets.specs.Rooms.{IsAtLimit};
ghost use Rattle.encode_task.specs.Made.{MadeOf};
ghost use Rattle.fair_plan.specs.Goals.{IsFairGoalOver};
ghost use Rattle.fair_theory.specs.FairPlans.{sets_of_goal};
ghost use Rattle.std.specs.Prelude.{◌≡◌, ◌≢◌, [], IfNone, IfOk, IfSome, IsErrOf};
ghost use Rattle.task_core.specs.Tasks.{fluent_count, initial_states};
ghost use Rattle.task_sets.specs.FullTables.{IsFull};

use ctl_syntax::ContextGoal;
use dd_sets::SetErr;
use encode_task::Enc;
use fair_plan::{FairFound, fair_plan};
use std::alloc::Global;
use task_core::Task;
use task_sets::{SetSearch, search_in_tries};

/// The search for a goal, in a table for so many nodes.
#[derive(Clone, Copy)]
struct FairSearch<'a> {
    goal: &'a ContextGoal,
    nodes: u32,
}

impl SetSearch for FairSearch<'_> {
    ghost use Rattle.control_command.specs.FairJudged.{IsFairlyFound, LacksFairRoom};
    ghost use Rattle.fair_plan.specs.Goals.{IsFairGoalOver};
    ghost use Rattle.fair_theory.specs.FairPlans.{sets_of_goal};
    ghost use Rattle.task_core.specs.Tasks.{fluent_count};

    type Found = FairFound;

    ghost nodes = { λ self. self.nodes };

    ghost fits = { λ self task. IsFairGoalOver (fluent_count task) self.goal.now };

    ghost finds = { λ self task found. IsFairlyFound task (sets_of_goal self.goal.now) found };

    ghost lacks_room = { λ self task. LacksFairRoom task };

    fn nodes(&self) -> u32 {
        self.nodes
    }

    fn find(&self, alloc: Global, task: &Task, enc: &mut Enc) -> Result<FairFound, SetErr> {
        find_fairly(alloc, task, enc, self.goal)
    }
}

/// What is found for a task and a goal; `None` where there is no initial state. It is the same over
/// variables in any order.
pub(crate) fn search_fairly(
    alloc: Global,
    nodes: u32,
    task: &Task,
    goal: &ContextGoal,
) -> Result<Option<FairFound>, SetErr>
    requires room { IsNodeLimit nodes }
    requires goal { IsFairGoalOver (fluent_count task.now) goal.now }
    ensures found { IfOk result (λ found. IfSome found
        (IsFairlyFound task.now (sets_of_goal goal.now))) }
    ensures some { IfOk result (λ found. IfSome found (λ _. initial_states task.now ≢ [])) }
    ensures none { IfOk result (λ found. IfNone found (initial_states task.now ≡ [])) }
    ensures full { IsErrOf result SetErr.Full → IsFull nodes task.now }
{
    search_in_tries(alloc, task, &FairSearch { goal, nodes })
}

/// What is found for a task and a goal, over the task's sets.
fn find_fairly(
    alloc: Global,
    task: &Task,
    enc: &mut Enc,
    goal: &ContextGoal,
) -> Result<FairFound, SetErr>
    requires made { MadeOf task.now enc.old }
    requires goal { IsFairGoalOver (fluent_count task.now) goal.now }
    ensures found { IfOk result (IsFairlyFound task.now (sets_of_goal goal.now)) }
    ensures full { IsErrOf result SetErr.Full → IsAtLimit enc.new.sets }
    ensures still_made { MadeOf task.now enc.new }
    ensures slots { Owns enc.old.sets enc.new.sets [] }
{
    fair_plan(alloc, task, enc, goal)
}
