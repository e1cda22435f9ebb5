//! Reads the texts of plans.

ghost use Rattle.std.specs.Prelude.{◌≡◌, ◌≤◌, ◌<◌, ◌+◌, ◌^◌, [], Some, IfOk, IfErr, length};
ghost use Rattle.std.specs.Option.{option_map};
ghost use Rattle.sexpr_text.specs.Flaws.{first_listed};
ghost use Rattle.sexpr_text.specs.Forest.{forest_of};
ghost use Rattle.sexpr_text.specs.Parts.{after_first};
ghost use Rattle.sexpr_text.specs.Passes.{IfFault};
ghost use Rattle.task_core.specs.Tasks.{action_count, action_names, fluent_count, fluent_names};
ghost use Rattle.plan_rules.specs.Items.{item_of};
ghost use Rattle.plan_rules.specs.Plans.{IsPlanOf};
ghost use Rattle.plan_rules.specs.Readings.{
  HasPlanFault,
  SpellsPlanAt,
  kind_named,
  plan_flaws,
  plan_read,
  plan_tree,
  text_flaws,
};
ghost use Rattle.plan_rules.specs.Rules.{plain_of};
ghost use Rattle.plan_rules.specs.Kinds.{kind_of};

use crate::auto_reader::read_automaton;
use crate::items::{first_item, span_of};
use crate::names::NameTable;
use crate::rules::{Plan, PlanRead};
use crate::table_reader::read_table;
use sexpr_text::{
    FaultKind, Form, Head, InputFault, MAX_BYTES, Place, ReadErr, Span, View, fault_at,
    first_group, head_of, read_forms,
};
use std::alloc::{AllocError, Global};
use task_core::Task;

/// The plan that the text spells, with the place of its list, or the text's first fault, or want of
/// memory. A text is a plan's where its first top-level list that begins with the word `plan` is as
/// `specs/Readings.antt` says; other top-level forms are passed over. Every text either spells
/// exactly one plan or has exactly one fault (`one_plan`, `plan_or_fault`).
/// `task` gives the fluents and actions. The time that this takes grows with the length of the text
/// and of the task's names.
pub fn read_plan(alloc: Global, bytes: &[u8], task: &Task) -> Result<PlanRead, ReadErr>
    requires { length bytes.now ≤ MAX_BYTES }
    ensures read { IfOk result (λ read.
        SpellsPlanAt (fluent_names task.now) (action_names task.now) bytes.now (plain_of read.plan)
        read.place) }
    ensures in_task { IfOk result (λ read.
        IsPlanOf (fluent_count task.now) (action_count task.now) read.plan) }
    ensures fault { IfErr result (λ e. IfFault e (λ fault.
        HasPlanFault (fluent_names task.now) (action_names task.now) bytes.now fault)) }
{
    let forms = read_forms(alloc, bytes)?;
    let fluents = fluent_table(alloc, task)?;
    let actions = action_table(alloc, task)?;
    read_text(alloc, &fluents, &actions, &forms)
}

/// The names of a task's fluents.
pub fn fluent_table(alloc: Global, task: &Task) -> Result<NameTable, AllocError>
    ensures { IfOk result (λ table. table ≡ fluent_names task.now) }
{
    let mut table = NameTable::new(alloc);
    for name in &task.fluents {
        table.add(alloc, name)?;
    }
    Ok(table)
}

// The names of a task's actions.
fn action_table(alloc: Global, task: &Task) -> Result<NameTable, AllocError>
    ensures { IfOk result (λ table. table ≡ action_names task.now) }
{
    let mut table = NameTable::new(alloc);
    for action in &task.actions {
        table.add(alloc, &action.name)?;
    }
    Ok(table)
}

// The plan in the forms of a text.
fn read_text(
    alloc: Global,
    fluents: &NameTable,
    actions: &NameTable,
    forms: &[Form],
) -> Result<PlanRead, ReadErr>
    ensures sound { IfOk result (λ read.
        text_flaws fluents.now actions.now (forest_of forms.now) ≡ []) }
    ensures read { IfOk result (λ read.
        plan_read fluents.now actions.now (forest_of forms.now)
        ≡ Some (plain_of read.plan, read.place)) }
    ensures fault { IfErr result (λ e. IfFault e (λ fault.
        first_listed (text_flaws fluents.now actions.now
        (forest_of forms.now)) ≡ Some fault)) }
{
    match first_group(forms, b"plan") {
        Some((span, parts)) => Ok(PlanRead {
            plan: read_list(alloc, fluents, actions, span, after_first(parts))?,
            place: span.place,
        }),
        None => Err(ReadErr::Fault(InputFault {
            kind: FaultKind::NoDefine,
            place: Place { line: 1, column: 1 },
        })),
    }
}

/// What follows the first form of a row.
pub fn after_first(row: &[Form]) -> &[Form]
    ensures { forest_of result.now ≡ after_first (forest_of row.now) }
{
    match head_of(row) {
        Head::Nothing => row,
        Head::Word(_, _, rest) => rest,
        Head::Group(_, _, rest) => rest,
    }
}

// The kinds of plans.
#[derive(Clone, Copy)]
enum Kind {
    Table,
    Automaton,
}

// The kind that a form names.
fn kind_named(form: View<'_>) -> Option<Kind>
    ensures { option_map kind_of result ≡ kind_named (item_of form.entry) }
{
    let View::Word(_, text) = form else {
        return None;
    };
    if text.is(b"table") {
        Some(Kind::Table)
    } else if text.is(b"automaton") {
        Some(Kind::Automaton)
    } else {
        None
    }
}

// The plan in what follows `plan` in the list at `span`.
fn read_list(
    alloc: Global,
    fluents: &NameTable,
    actions: &NameTable,
    span: Span,
    row: &[Form],
) -> Result<Plan, ReadErr>
    ensures sound { IfOk result (λ plan.
        plan_flaws fluents.now actions.now span (forest_of row.now) ≡ []) }
    ensures read { IfOk result (λ plan.
        plain_of plan ≡ plan_tree fluents.now actions.now
        (forest_of row.now)) }
    ensures fault { IfErr result (λ e. IfFault e (λ fault.
        first_listed (plan_flaws fluents.now actions.now span
        (forest_of row.now)) ≡ Some fault)) }
{
    let Some((form, rest)) = first_item(row) else {
        return Err(fault_at(span, FaultKind::BadForm));
    };
    match kind_named(form) {
        Some(Kind::Table) => read_table(alloc, fluents, actions, span, rest),
        Some(Kind::Automaton) => read_automaton(alloc, fluents, actions, span, rest),
        None => Err(fault_at(span_of(form), FaultKind::BadForm)),
    }
}
