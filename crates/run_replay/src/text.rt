//! The text of a run.

ghost use Rattle.run_replay.specs.Runs.{IsStepOf, ending_of, step_value, steps_value};
ghost use Rattle.run_replay.specs.TraceTexts.{
  end_line,
  ending_word,
  step_line,
  tally_line,
  tally_lines,
  trace_text,
};
ghost use Rattle.std.specs.List.{flat_map};
ghost use Rattle.std.specs.Prelude.{
  ◌≡◌,
  ℕ,
  ◌<◌,
  ◌++◌,
  All,
  IfOk,
  OnOk,
  length,
  map,
  string_bytes,
};
ghost use Rattle.task_core.specs.Names.{name_of};
ghost use Rattle.task_core.specs.Tasks.{action_count, action_names, fluent_count};

use crate::monitors::Monitor;
use crate::traces::{End, Trace};
use crate::worlds::Step;
use itoa::Buffer;
use plan_rules::{push_name, push_number};
use std::alloc::{AllocError, Global};
use task_core::{GroundAction, Task};

/// The text of a run of a task, in lines that each end with a line feed. Each step has the line
/// `step S (ACTION) outcome O`; then comes `end terminal`, `end record` or `end cap`, and then, in
/// the list's order, `tally TITLE VALUE` for each monitor. The actions of the steps are the task's.
/// Fails only where memory runs out.
pub fn write_trace(
    alloc: Global,
    task: &Task,
    trace: &Trace,
    monitors: &[Box<dyn Monitor>],
) -> Result<Vec<u8>, AllocError>
    requires in_task { All (IsStepOf (fluent_count task.now) (action_count task.now))
        trace.now.steps.items }
    ensures { IfOk result (λ text. text.items
        ≡ trace_text (action_names task.now)
        (steps_value (fluent_count task.now) trace.now.steps.items)
        (ending_of trace.now.end)
        ++ tally_lines (map (λ monitor. shown monitor) monitors.now)) }
{
    let mut lines = String::new(alloc);
    push_steps(&mut lines, task, &trace.steps)?;
    push_end(&mut lines, trace.end)?;
    let mut out = lines.into_bytes();
    push_tallies(alloc, &mut out, monitors)?;
    Ok(out)
}

fn push_steps(out: &mut String, task: &Task, steps: &[Step]) -> Result<(), AllocError>
    requires { All (IsStepOf (fluent_count task.now) (action_count task.now)) steps.now }
    ensures { OnOk result (string_bytes out.new ≡ string_bytes out.old ++ flat_map
        (step_line (action_names task.now)) (steps_value (fluent_count task.now) steps.now)) }
{
    for step in steps {
        push_step(out, &task.actions, step)?;
    }
    Ok(())
}

fn push_step(out: &mut String, actions: &[GroundAction], step: &Step) -> Result<(), AllocError>
    requires { step.now.action.0 < length actions.now }
    ensures { OnOk result ((n : ℕ) →
        string_bytes out.new ≡ string_bytes out.old
        ++ step_line (map name_of actions.now) (step_value n step.now)) }
{
    out.push_str("step ")?;
    push_number(out, step.number)?;
    out.push_str(" ")?;
    push_name(out, &actions[step.action.0 as usize].name)?;
    out.push_str(" outcome ")?;
    push_number(out, step.outcome)?;
    out.push_str("\n")?;
    Ok(())
}

fn push_end(out: &mut String, end: End) -> Result<(), AllocError>
    ensures { OnOk result (string_bytes out.new ≡ string_bytes out.old ++ end_line (ending_of end)) }
{
    out.push_str("end ")?;
    out.push_str(word_of(end))?;
    out.push_str("\n")?;
    Ok(())
}

fn word_of(end: End) -> &'static str
    ensures { result.now ≡ ending_word (ending_of end) }
{
    match end {
        End::Terminal => "terminal",
        End::Ended => "record",
        End::Capped => "cap",
    }
}

fn push_tallies(
    alloc: Global,
    out: &mut Vec<u8>,
    monitors: &[Box<dyn Monitor>],
) -> Result<(), AllocError>
    ensures { OnOk result (out.new.items ≡ out.old.items
        ++ tally_lines (map (λ monitor. shown monitor) monitors.now)) }
{
    for monitor in monitors {
        push_tally(alloc, out, monitor)?;
    }
    Ok(())
}

fn push_tally(
    alloc: Global,
    out: &mut Vec<u8>,
    monitor: &Box<dyn Monitor>,
) -> Result<(), AllocError>
    ensures { OnOk result (out.new.items
        ≡ out.old.items ++ tally_line (shown monitor.now).title (shown monitor.now).counted) }
{
    out.extend_from_slice(b"tally ")?;
    push_title(alloc, out, monitor)?;
    out.extend_from_slice(b" ")?;
    let mut buffer = Buffer::new();
    out.extend_from_slice(buffer.format(tally_of(monitor)).as_bytes())?;
    out.extend_from_slice(b"\n")
}

fn push_title(
    alloc: Global,
    out: &mut Vec<u8>,
    monitor: &Box<dyn Monitor>,
) -> Result<(), AllocError>
    ensures { OnOk result (out.new.items ≡ out.old.items ++ (shown monitor.now).title) }
{
    monitor.name(alloc, out)
}

fn tally_of(monitor: &Box<dyn Monitor>) -> u128
    ensures { result ≡ (shown monitor.now).counted }
{
    monitor.tally()
}
