//! The command `ground`.

ghost use Rattle.command_base.specs.Answers.{no_memory, refused};
ghost use Rattle.command_base.specs.Shelves.{KeepsShelf};
ghost use Rattle.command_base.specs.Values.{answer_of, ground_words_of};
ghost use Rattle.ground_command.specs.GroundCommand.{
  FetchesToGround,
  IsGroundAnswer,
  IsListed,
  action_line,
  fluent_line,
  listing,
};
ghost use Rattle.pddl_ast.specs.Fits.{FitsDomain, FitsProblem};
ghost use Rattle.pddl_ast.specs.Values.{domain_value, problem_value};
ghost use Rattle.pddl_system.specs.Names.{NamesAreWords};
ghost use Rattle.plan_io.specs.Fetches.{FailedLast};
ghost use Rattle.std.specs.List.{flat_map};
ghost use Rattle.std.specs.Prelude.{◌≡◌, ◌++◌, ◌⊎◌, IfOk, OnOk, length, map, string_bytes};
ghost use Rattle.task_core.specs.Initial.{entries_of};
ghost use Rattle.task_core.specs.Names.{name_bytes, name_of};
ghost use Rattle.task_core.specs.Tasks.{fluent_names};

use command_base::{GroundWords, Refusal, Shown, Text, grounded, push_count, read_both};
use pddl_ast::{Domain, Problem};
use plan_io::Shelf;
use plan_rules::push_name;
use std::alloc::{AllocError, Global};
use std::rc::RcStr;
use task_core::{GroundAction, Task};

/// The listing of what the domain and the problem in two files are grounded to.
pub fn ground_files<S: Shelf>(
    alloc: Global,
    shelf: &mut S,
    asked: &GroundWords,
) -> Result<Shown, Refusal>
    ensures answer { let failed = FailedLast S.fetched S.faults shelf.old shelf.new in
        (answer_of result ≡ refused no_memory)
        ⊎ IsGroundAnswer (S.held shelf.old) failed (ground_words_of asked.now)
        (answer_of result) }
    ensures fetches { let failed = FailedLast S.fetched S.faults shelf.old shelf.new in
        FetchesToGround (S.held shelf.old) failed S.fetched (ground_words_of asked.now)
        (answer_of result) shelf.old shelf.new }
    ensures shelf { KeepsShelf S.held S.faults (answer_of result) shelf.old shelf.new }
{
    let (domain, problem) = read_both(alloc, shelf, asked.domain, asked.problem)?;
    list_grounded(alloc, &domain, &problem)
}

/// The listing of what a domain and a problem are grounded to.
fn list_grounded(alloc: Global, domain: &Domain, problem: &Problem) -> Result<Shown, Refusal>
    requires fits_domain { FitsDomain (domain_value domain.now) }
    requires fits_problem { FitsProblem (domain_value domain.now) (problem_value problem.now) }
    requires names { NamesAreWords (domain_value domain.now) (problem_value problem.now) }
    ensures { (answer_of result ≡ refused no_memory)
        ⊎ IsListed (domain_value domain.now) (problem_value problem.now) (answer_of result) }
{
    let task = grounded(alloc, domain, problem)?;
    Ok(Shown::Affirmed(Text::Made(list_task(alloc, &task)?.into_bytes())))
}

/// The listing of a task.
fn list_task(alloc: Global, task: &Task) -> Result<String, AllocError>
    ensures { IfOk result (λ text. string_bytes text ≡ listing (fluent_names task.now)
        (map (λ action. (name_of action, length action.outcomes.items)) task.now.actions.items)
        (length (entries_of task.now.init))) }
{
    let mut text = String::new(alloc);
    push_count(&mut text, "fluents", task.fluents.len())?;
    push_fluents(&mut text, &task.fluents)?;
    push_count(&mut text, "actions", task.actions.len())?;
    push_actions(&mut text, &task.actions)?;
    push_count(&mut text, "uncertain", task.init.entries.len())?;
    Ok(text)
}

/// Appends a line for each fluent.
fn push_fluents(out: &mut String, fluents: &[Vec<RcStr>]) -> Result<(), AllocError>
    ensures { OnOk result (string_bytes out.new
        ≡ string_bytes out.old ++ flat_map fluent_line (map name_bytes fluents.now)) }
{
    for fluent in fluents {
        push_name(out, fluent)?;
        out.push('\n')?;
    }
    Ok(())
}

/// Appends a line for each action, with the number of its outcomes.
fn push_actions(out: &mut String, actions: &[GroundAction]) -> Result<(), AllocError>
    ensures { OnOk result (string_bytes out.new ≡ string_bytes out.old
        ++ flat_map action_line
        (map (λ action. (name_of action, length action.outcomes.items)) actions.now)) }
{
    for action in actions {
        push_action(out, action)?;
    }
    Ok(())
}

/// Appends the line of an action.
fn push_action(out: &mut String, action: &GroundAction) -> Result<(), AllocError>
    ensures { OnOk result (string_bytes out.new ≡ string_bytes out.old
        ++ action_line (name_of action.now, length action.now.outcomes.items)) }
{
    push_name(out, &action.name)?;
    out.push(' ')?;
    out.push_str(itoa::Buffer::new().format(action.outcomes.len()))?;
    out.push('\n')
}
