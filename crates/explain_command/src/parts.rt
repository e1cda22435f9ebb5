//! The parts of a goal that are false along a run as JSON.

ghost use Rattle.ctl_syntax.specs.Values.{ctl_value};
ghost use Rattle.explain_command.specs.Documents.{line_data};
ghost use Rattle.goal_witness.specs.Lines.{line_value as plain_line};
ghost use Rattle.goal_witness.specs.Texts.{goal_text as text_of};
ghost use Rattle.plan_document.specs.Data.{list_data};
ghost use Rattle.counterexamples.specs.Findings.{lines_in};
ghost use Rattle.counterexamples.specs.Values.{ending_value};
ghost use Rattle.serde_json.specs.Data.{string};
ghost use Rattle.serde_json.specs.View.{view};
ghost use Rattle.std.specs.Prelude.{◌≡◌, IfOk, map};
ghost use Rattle.task_core.specs.Tasks.{fluent_names};

use crate::steps::number_value;
use counterexamples::{Ending, missed_lines};
use ctl_syntax::Ctl;
use goal_witness::{Line, push_goal};
use serde_json::{Map, Value, put};
use std::alloc::{AllocError, Global};
use task_core::Task;

/// Which goals are false where along a run.
pub(crate) fn part_values(
    alloc: Global,
    task: &Task,
    ending: &Ending<'_>,
) -> Result<Value, AllocError>
    ensures { IfOk result (λ value. view value
        ≡ list_data (line_data (fluent_names task.now)) (lines_in (ending_value ending.now))) }
{
    let lines = missed_lines(ending);
    lines_value(alloc, task, lines)
}

/// Some goals, and where they are false.
fn lines_value(alloc: Global, task: &Task, lines: &[Line<'_>]) -> Result<Value, AllocError>
    ensures { IfOk result (λ value. view value
        ≡ list_data (line_data (fluent_names task.now)) (map plain_line lines.now)) }
{
    let mut values = Vec::new(alloc);
    for line in lines {
        values.push(line_value(alloc, task, line)?)?;
    }
    Ok(Value::from(values))
}

/// A goal, and where it is false.
fn line_value(alloc: Global, task: &Task, line: &Line<'_>) -> Result<Value, AllocError>
    ensures { IfOk result (λ value.
        view value ≡ line_data (fluent_names task.now) (plain_line line.now)) }
{
    let goal = goal_value(alloc, task, line.goal)?;
    let mut members = Map::new(alloc);
    put(&mut members, alloc, "last", number_value(line.last))?;
    put(&mut members, alloc, "goal", goal)?;
    put(&mut members, alloc, "from", number_value(line.from))?;
    Ok(Value::from(members))
}

/// The text of a goal.
fn goal_value(alloc: Global, task: &Task, goal: &Ctl) -> Result<Value, AllocError>
    ensures { IfOk result (λ value.
        view value ≡ string (text_of (fluent_names task.now) (ctl_value goal.now))) }
{
    let mut text = String::new(alloc);
    push_goal(&mut text, &task.fluents, goal)?;
    Ok(Value::from(text))
}
