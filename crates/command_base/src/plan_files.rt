//! Reading a plan out of its file.

ghost use Rattle.command_base.specs.Answers.{no_memory};
ghost use Rattle.command_base.specs.PlanFiles.{IsFaultyPlan, SpellsPlaced};
ghost use Rattle.command_base.specs.Reading.{Holds, IsRefusedFile};
ghost use Rattle.command_base.specs.Shelves.{ReadsShelf};
ghost use Rattle.command_base.specs.Values.{placed_of, refusal_of};
ghost use Rattle.plan_io.specs.Fetches.{FailedLast};
ghost use Rattle.plan_rules.specs.Plans.{IsPlanOf};
ghost use Rattle.std.specs.Prelude.{◌≡◌, ◌⊎◌, IfErr, IfOk};
ghost use Rattle.task_core.specs.Tasks.{action_count, action_names, fluent_count, fluent_names};

use crate::answers::Refusal;
use crate::files::fetch;
use crate::pddl_texts::misread;
use plan_io::Shelf;
use plan_rules::{PlanRead, read_plan};
use std::alloc::Global;
use task_core::Task;

/// The plan for a task in a file.
pub fn read_plan_file<S: Shelf>(
    alloc: Global,
    shelf: &mut S,
    name: &str,
    task: &Task,
) -> Result<PlanRead, Refusal>
    ensures holds { IfOk result (λ read. Holds (S.held shelf.old)
        (SpellsPlaced (fluent_names task.now) (action_names task.now)) name.now
        (placed_of read)) }
    ensures in_task { IfOk result (λ read.
        IsPlanOf (fluent_count task.now) (action_count task.now) read.plan) }
    ensures refused { let failed = FailedLast S.fetched S.faults shelf.old shelf.new in
        IfErr result (λ refusal. (refusal_of refusal ≡ no_memory)
        ⊎ IsRefusedFile (S.held shelf.old) failed
        (IsFaultyPlan (fluent_names task.now) (action_names task.now)) name.now
        (refusal_of refusal)) }
    ensures fetch { S.fetched shelf.old name.now shelf.new }
    ensures shelf { ReadsShelf S.held S.faults result shelf.old shelf.new }
{
    let bytes = fetch(alloc, shelf, name)?;
    match read_plan(alloc, &bytes, task) {
        Ok(read) => Ok(read),
        Err(error) => Err(misread(alloc, name, error)?),
    }
}
