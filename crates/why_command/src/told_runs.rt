//! What is told after the lines that there is no plan.

ghost use Rattle.command_base.specs.Values.{bytes_of, kind_of, shown_of};
ghost use Rattle.command_base.specs.Words.{IsNodeLimit};
ghost use Rattle.dead_ends.specs.ToldRuns.{IsRunTold};
ghost use Rattle.std.specs.Prelude.{◌≡◌, ◌++◌, IfOk};
ghost use Rattle.task_core.specs.Tasks.{action_names, fluent_names, system_of};
ghost use Rattle.why_command.specs.ToldRuns.{HasMore, HasRunAfter, IsToldFor, IsToldOf};

use crate::tables::TablePlanner;
use command_base::{PlanKind, PlanWords, Shown, Text};
use dead_ends::run_to_goal;
use plan_rules::Class;
use std::alloc::{AllocError, Global};
use task_core::Task;

/// What is shown, with what is told after it where it denies that there is a plan that asks for more than
/// a weak one. The task goes on with another initial state.
pub(crate) fn with_run(
    alloc: Global,
    asked: &PlanWords,
    task: &mut Task,
    shown: Shown,
) -> Result<Shown, AllocError>
    requires { IsNodeLimit asked.now.options.nodes }
    ensures { IfOk result (λ after. HasRunAfter (kind_of asked.now.kind) (system_of task.old)
        (fluent_names task.old) (action_names task.old) (shown_of shown) (shown_of after)) }
{
    match shown {
        Shown::Affirmed(text) => Ok(Shown::Affirmed(text)),
        Shown::Denied(text) => {
            let told = with_kind(alloc, asked.kind, asked.options.nodes, task, text)?;
            Ok(Shown::Denied(told))
        }
    }
}

/// The lines that there is no plan of a kind, with what is told after them.
fn with_kind(
    alloc: Global,
    kind: PlanKind,
    nodes: u32,
    task: &mut Task,
    text: Text,
) -> Result<Text, AllocError>
    requires { IsNodeLimit nodes }
    ensures { IfOk result (λ after. HasMore (IsToldFor (kind_of kind) (system_of task.old)
        (fluent_names task.old) (action_names task.old)) (bytes_of text) (bytes_of after)) }
{
    match kind {
        PlanKind::Class(class) => with_class(alloc, class, nodes, task, text),
        PlanKind::Contexts => Ok(text),
    }
}

/// The lines that there is no plan of a class, with what is told after them.
fn with_class(
    alloc: Global,
    class: Class,
    nodes: u32,
    task: &mut Task,
    text: Text,
) -> Result<Text, AllocError>
    requires { IsNodeLimit nodes }
    ensures { IfOk result (λ after. HasMore (IsToldOf class (system_of task.old)
        (fluent_names task.old) (action_names task.old)) (bytes_of text) (bytes_of after)) }
{
    match class {
        Class::Strong => with_told(alloc, Class::Strong, nodes, task, text),
        Class::Cyclic => with_told(alloc, Class::Cyclic, nodes, task, text),
        Class::Weak => Ok(text),
    }
}

/// A text with what is told of a class after it.
fn with_told(
    alloc: Global,
    class: Class,
    nodes: u32,
    task: &mut Task,
    text: Text,
) -> Result<Text, AllocError>
    requires { IsNodeLimit nodes }
    ensures { IfOk result (λ after. HasMore (IsRunTold class (system_of task.old)
        (fluent_names task.old) (action_names task.old)) (bytes_of text) (bytes_of after)) }
{
    match run_to_goal(alloc, &TablePlanner { nodes }, class, task)? {
        Some(more) => joined(alloc, text.as_bytes(), more.as_bytes()),
        None => Ok(text),
    }
}

/// Two texts, one after the other.
fn joined(alloc: Global, first: &[u8], second: &[u8]) -> Result<Text, AllocError>
    ensures { IfOk result (λ text. bytes_of text ≡ first.now ++ second.now) }
{
    let mut bytes = Vec::from_slice(alloc, first)?;
    bytes.extend_from_slice(second)?;
    Ok(Text::Made(bytes))
}
