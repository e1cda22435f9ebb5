//! Reading a plan and the lines of its rules.

ghost use Rattle.command_base.specs.Answers.{no_memory};
ghost use Rattle.command_base.specs.PlanFiles.{IsFaultyPlan};
ghost use Rattle.command_base.specs.Reading.{Holds, IsRefusedFile};
ghost use Rattle.command_base.specs.Shelves.{ReadsShelf};
ghost use Rattle.command_base.specs.Values.{refusal_of};
ghost use Rattle.explain_command.specs.Lined.{SpellsLined};
ghost use Rattle.explain_command.specs.Values.{lined_of};
ghost use Rattle.plan_io.specs.Fetches.{FailedLast};
ghost use Rattle.plan_rules.specs.Plans.{IsPlanOf};
ghost use Rattle.plan_rules.specs.Readings.{HasPlanFault};
ghost use Rattle.sexpr_text.specs.Passes.{IfFault};
ghost use Rattle.std.specs.Prelude.{◌≡◌, ◌≤◌, ◌⊎◌, IfErr, IfOk, length};
ghost use Rattle.task_core.specs.Tasks.{action_count, action_names, fluent_count, fluent_names};

use command_base::{Refusal, fetch, misread};
use plan_io::Shelf;
use plan_rules::{PlanRead, read_plan, rule_lines};
use sexpr_text::{MAX_BYTES, ReadErr};
use std::alloc::Global;
use task_core::Task;

/// A plan, with the place of its list, and the line in which each of its rules begins.
#[derive(Drop)]
pub struct Lined {
    pub read: PlanRead,
    pub lines: Vec<u32>,
}

/// The plan for a task in a file.
pub fn read_lined<S: Shelf>(
    alloc: Global,
    shelf: &mut S,
    name: &str,
    task: &Task,
) -> Result<Lined, Refusal>
    ensures holds { IfOk result (λ lined. Holds (S.held shelf.old)
        (SpellsLined (fluent_names task.now) (action_names task.now)) name.now
        (lined_of lined)) }
    ensures in_task { IfOk result (λ lined.
        IsPlanOf (fluent_count task.now) (action_count task.now) lined.read.plan) }
    ensures refused { let failed = FailedLast S.fetched S.faults shelf.old shelf.new in
        IfErr result (λ refusal. (refusal_of refusal ≡ no_memory)
        ⊎ IsRefusedFile (S.held shelf.old) failed
        (IsFaultyPlan (fluent_names task.now) (action_names task.now)) name.now
        (refusal_of refusal)) }
    ensures fetch { S.fetched shelf.old name.now shelf.new }
    ensures shelf { ReadsShelf S.held S.faults result shelf.old shelf.new }
{
    let bytes = fetch(alloc, shelf, name)?;
    match lined_plan(alloc, &bytes, task) {
        Ok(lined) => Ok(lined),
        Err(error) => Err(misread(alloc, name, error)?),
    }
}

/// The plan that a text spells, with the lines of its rules.
fn lined_plan(alloc: Global, bytes: &[u8], task: &Task) -> Result<Lined, ReadErr>
    requires { length bytes.now ≤ MAX_BYTES }
    ensures spelled { IfOk result (λ lined.
        SpellsLined (fluent_names task.now) (action_names task.now) bytes.now (lined_of lined)) }
    ensures in_task { IfOk result (λ lined.
        IsPlanOf (fluent_count task.now) (action_count task.now) lined.read.plan) }
    ensures fault { IfErr result (λ e. IfFault e (λ fault.
        HasPlanFault (fluent_names task.now) (action_names task.now) bytes.now fault)) }
{
    let read = read_plan(alloc, bytes, task)?;
    let lines = rule_lines(alloc, bytes)?;
    Ok(Lined { read, lines })
}
