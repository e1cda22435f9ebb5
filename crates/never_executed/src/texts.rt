//! The lines that say why literals are never true.

ghost use Rattle.std.specs.Prelude.{◌≡◌, ◌++◌, OnOk, length, map, string_bytes, take};
ghost use Rattle.std.specs.List.{flat_map};
ghost use Rattle.task_core.specs.Tasks.{fluent_names, outcomes_at};
ghost use Rattle.relaxed_reach.specs.Literals.{has};
ghost use Rattle.never_executed.specs.Texts.{
  literal_text,
  maker_line,
  maker_lines,
  more_line,
  most_makers,
  outcome_note,
  reason_text,
  reasons_text,
};
ghost use Rattle.never_executed.specs.Values.{maker_value};

use crate::makers::{Maker, lacks_of, makers_of};
use crate::relaxed::Relaxed;
use plan_rules::push_number;
use state_text::{push_action, push_condition, push_parts};
use std::alloc::{AllocError, Global};
use task_core::{ActionId, Cond, Lit, Task};

/// How many outcomes are printed of a literal.
const MOST_MAKERS: usize = 5;

/// Appends the lines of some literals: for each what the outcomes that would make it true need.
pub fn push_reasons(
    alloc: Global,
    out: &mut String,
    relaxed: &Relaxed<'_>,
    lits: &[Lit],
) -> Result<(), AllocError>
    ensures { OnOk result (string_bytes out.new ≡ string_bytes out.old
        ++ reasons_text relaxed.now.task.now (has relaxed.now.literals.now) lits.now) }
{
    for lit in lits {
        push_reason(alloc, out, relaxed, *lit)?;
    }
    Ok(())
}

/// Appends the lines of a literal.
fn push_reason(
    alloc: Global,
    out: &mut String,
    relaxed: &Relaxed<'_>,
    lit: Lit,
) -> Result<(), AllocError>
    ensures { OnOk result (string_bytes out.new ≡ string_bytes out.old
        ++ reason_text relaxed.now.task.now (has relaxed.now.literals.now) lit) }
{
    push_literal(out, relaxed.task, lit)?;
    out.push_str(" is never true:\n")?;
    let makers = makers_of(alloc, relaxed.task, lit)?;
    push_makers(alloc, out, relaxed, lit, &makers)
}

fn push_literal(out: &mut String, task: &Task, lit: Lit) -> Result<(), AllocError>
    ensures { OnOk result (string_bytes out.new ≡ string_bytes out.old
        ++ literal_text (fluent_names task.now) lit) }
{
    if lit.positive {
        return push_condition(out, &task.fluents, &Cond::Is(lit.fluent));
    }
    out.push_str("(not ")?;
    push_condition(out, &task.fluents, &Cond::Is(lit.fluent))?;
    out.push(')')
}

/// Appends the lines of the outcomes that would make a literal true, or that there are none.
fn push_makers(
    alloc: Global,
    out: &mut String,
    relaxed: &Relaxed<'_>,
    lit: Lit,
    makers: &[Maker],
) -> Result<(), AllocError>
    ensures { OnOk result (string_bytes out.new ≡ string_bytes out.old
        ++ maker_lines relaxed.now.task.now (has relaxed.now.literals.now) lit
        (map maker_value makers.now)) }
{
    if makers.is_empty() {
        return out.push_str("  no action makes it so\n");
    }
    push_shown(alloc, out, relaxed, lit, first_of(makers))?;
    push_more(out, makers.len())
}

/// The first of the outcomes, as many as are printed.
fn first_of(makers: &[Maker]) -> &[Maker]
    ensures { result.now ≡ take most_makers makers.now }
{
    if makers.len() <= MOST_MAKERS {
        makers
    } else {
        &makers[..MOST_MAKERS]
    }
}

/// Appends the lines of some outcomes.
fn push_shown(
    alloc: Global,
    out: &mut String,
    relaxed: &Relaxed<'_>,
    lit: Lit,
    makers: &[Maker],
) -> Result<(), AllocError>
    ensures { OnOk result (string_bytes out.new ≡ string_bytes out.old
        ++ flat_map (maker_line relaxed.now.task.now (has relaxed.now.literals.now) lit)
        (map maker_value makers.now)) }
{
    for maker in makers {
        push_maker(alloc, out, relaxed, lit, *maker)?;
    }
    Ok(())
}

/// Appends the line below the outcomes, where there are more.
fn push_more(out: &mut String, count: usize) -> Result<(), AllocError>
    ensures { OnOk result (string_bytes out.new ≡ string_bytes out.old ++ more_line count) }
{
    if count <= MOST_MAKERS {
        return Ok(());
    }
    out.push_str("  and ")?;
    push_number(out, count - MOST_MAKERS)?;
    out.push_str(" more\n")
}

/// Appends the line of an outcome.
fn push_maker(
    alloc: Global,
    out: &mut String,
    relaxed: &Relaxed<'_>,
    lit: Lit,
    maker: Maker,
) -> Result<(), AllocError>
    ensures { OnOk result (string_bytes out.new ≡ string_bytes out.old
        ++ maker_line relaxed.now.task.now (has relaxed.now.literals.now) lit
        (maker_value maker)) }
{
    let parts = lacks_of(alloc, relaxed, lit, maker)?;
    out.push_str("  ")?;
    push_action(out, relaxed.task, maker.action)?;
    push_outcome(out, outcomes_in(relaxed.task, maker.action), maker.outcome)?;
    out.push_str(" needs")?;
    push_parts(out, relaxed.task, &parts)?;
    out.push('\n')
}

/// How many outcomes an action has; 0 past the last.
fn outcomes_in(task: &Task, action: ActionId) -> usize
    ensures { result ≡ length (outcomes_at task.now action.0) }
{
    match task.actions.get(action.0 as usize) {
        Some(action) => action.outcomes.len(),
        None => 0,
    }
}

/// Appends the number of an outcome, where the action has more than one.
fn push_outcome(out: &mut String, count: usize, outcome: u32) -> Result<(), AllocError>
    ensures { OnOk result (string_bytes out.new ≡ string_bytes out.old
        ++ outcome_note count outcome) }
{
    if count <= 1 {
        return Ok(());
    }
    out.push_str(", outcome ")?;
    push_number(out, outcome)?;
    out.push(',')
}
