//! The planner that searches over sets of states, in a table of nodes.

ghost use Rattle.command_base.specs.Words.{IsNodeLimit};
ghost use Rattle.dead_ends.specs.Planners.{IsFoundFor};
ghost use Rattle.std.specs.Prelude.{IfOk, IfSome, IsSome};

use dd_sets::SetErr;
use dead_ends::Planner;
use encode_task::Enc;
use plan_command::find_plan;
use plan_rules::Class;
use plan_theory::Found;
use std::alloc::{AllocError, Global};
use task_core::Task;
use task_sets::{SetSearch, search_in_tries};

/// The planner that searches in a table for so many nodes. Where the table is too small it can't tell.
#[derive(Clone, Copy)]
pub(crate) struct TablePlanner {
    pub(crate) nodes: u32,
}

impl Planner for TablePlanner {
    ghost use Rattle.command_base.specs.Words.{IsNodeLimit};

    ghost fits = { λ self. IsNodeLimit self.nodes };

    fn find(&self, alloc: Global, class: Class, task: &Task) -> Result<Option<Found>, AllocError> {
        find_in_table(alloc, class, self.nodes, task)
    }
}

/// The plan of a class for a task, which is looked for in a table for so many nodes.
fn find_in_table(
    alloc: Global,
    class: Class,
    nodes: u32,
    task: &Task,
) -> Result<Option<Found>, AllocError>
    requires room { IsNodeLimit nodes }
    requires goal { IsSome task.now.goal }
    ensures { IfOk result (λ found. IfSome found (IsFoundFor class task.now)) }
{
    match search_in_tries(alloc, task, &ClassSearch { class, nodes }) {
        Ok(found) => Ok(found),
        Err(SetErr::Full) => Ok(None),
        Err(SetErr::Memory) => Err(AllocError),
    }
}

/// The search for the plan of a class in a table for so many nodes.
#[derive(Clone, Copy)]
struct ClassSearch {
    class: Class,
    nodes: u32,
}

impl SetSearch for ClassSearch {
    ghost use Rattle.plan_command.specs.Enough.{LacksClassRoom};
    ghost use Rattle.plan_command.specs.FoundPlans.{IsSearched};
    ghost use Rattle.std.specs.Prelude.{IsSome, Ok};

    type Found = Found;

    ghost nodes = { λ self. self.nodes };

    ghost fits = { λ self task. IsSome task.goal };

    ghost finds = { λ self task found. IsSearched self.class task (Ok found) };

    ghost lacks_room = { λ self task. LacksClassRoom self.class task };

    fn nodes(&self) -> u32 {
        self.nodes
    }

    fn find(&self, alloc: Global, task: &Task, enc: &mut Enc) -> Result<Found, SetErr> {
        find_plan(alloc, self.class, task, enc)
    }
}
