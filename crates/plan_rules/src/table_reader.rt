//! Reads table plans.

ghost use Rattle.std.specs.Prelude.{◌≡◌, ℕ, [], Some, IfOk, IfErr, map, is_some};
ghost use Rattle.std.specs.Option.{option_map};
ghost use Rattle.sexpr_text.specs.Flaws.{first_listed};
ghost use Rattle.sexpr_text.specs.Forest.{forest_of};
ghost use Rattle.sexpr_text.specs.Passes.{IfFault};
ghost use Rattle.plan_rules.specs.Items.{first_item, item_of, split_group};
ghost use Rattle.plan_rules.specs.PartsViews.{table_rule_view};
ghost use Rattle.plan_rules.specs.Readings.{class_named, table_flaws, table_tree, table_rule_parts};
ghost use Rattle.plan_rules.specs.Rules.{plain_of};

use crate::items::{TableRuleParts, first_item, span_of, split_group};
use crate::literals::{read_action, read_cube};
use crate::names::{NameTable, are_words};
use crate::rules::{Class, Plan, Rule, TablePlan};
use sexpr_text::{
    FaultKind, Form, GroupReader, ReadErr, Span, View, after_word, fault_at, is_nothing,
    read_groups,
};
use std::alloc::Global;

/// Reads the rules of a table.
#[derive(Clone, Copy)]
pub(crate) struct TableRuleReader<'a> {
    pub(crate) fluents: &'a NameTable,
    pub(crate) actions: &'a NameTable,
}

impl GroupReader for TableRuleReader<'_> {
    ghost use Rattle.plan_rules.specs.Readings.{table_rule_flaws, table_rule_tree};
    ghost use Rattle.plan_rules.specs.Rules.{PlanRule, rule_of};

    type Item = Rule;

    ghost Tree = { PlanRule };

    ghost plain = { rule_of };

    ghost tree = { λ self parts. table_rule_tree self.fluents.now
        self.actions.now parts };

    ghost flaws = { λ self span parts.
        table_rule_flaws self.fluents.now self.actions.now span parts };

    fn read(&self, alloc: Global, span: Span, parts: &[Form]) -> Result<Rule, ReadErr> {
        match rule_parts(parts) {
            Some(rule) => Ok(Rule {
                cube: read_cube(alloc, self.fluents, rule.cube)?,
                action: read_action(alloc, self.actions, rule.action_span, rule.action)?,
            }),
            None => Err(fault_at(span, FaultKind::BadForm)),
        }
    }
}

// The parts of `rule (LITERAL ..) (WORD ..)`.
fn rule_parts(parts: &[Form]) -> Option<TableRuleParts<'_>>
    ensures { option_map table_rule_view result ≡ table_rule_parts (forest_of parts.now) }
{
    let (_, cube, rest) = split_group(after_word(parts, b"rule")?)?;
    let (action_span, action, rest) = split_group(rest)?;
    if is_nothing(rest) && are_words(action) {
        Some(TableRuleParts {
            cube,
            action_span,
            action,
        })
    } else {
        None
    }
}

/// The class that a form names.
pub fn class_named(form: View<'_>) -> Option<Class>
    ensures { result ≡ class_named (item_of form.entry) }
{
    let View::Word(_, text) = form else {
        return None;
    };
    if text.is(b"weak") {
        Some(Class::Weak)
    } else if text.is(b"strong") {
        Some(Class::Strong)
    } else if text.is(b"cyclic") {
        Some(Class::Cyclic)
    } else {
        None
    }
}

/// The table plan in what follows `plan table` in the list at `span`.
pub(crate) fn read_table(
    alloc: Global,
    fluents: &NameTable,
    actions: &NameTable,
    span: Span,
    row: &[Form],
) -> Result<Plan, ReadErr>
    ensures sound { IfOk result (λ plan.
        table_flaws fluents.now actions.now span (forest_of row.now) ≡ []) }
    ensures read { IfOk result (λ plan.
        plain_of plan ≡ table_tree fluents.now actions.now
        (forest_of row.now)) }
    ensures fault { IfErr result (λ e. IfFault e (λ fault.
        first_listed (table_flaws fluents.now actions.now span
        (forest_of row.now)) ≡ Some fault)) }
{
    let Some((form, rest)) = first_item(row) else {
        return Err(fault_at(span, FaultKind::BadForm));
    };
    let Some(class) = class_named(form) else {
        return Err(fault_at(span_of(form), FaultKind::BadForm));
    };
    let rules = read_groups(alloc, &TableRuleReader { fluents, actions }, rest)?;
    Ok(Plan::Table(TablePlan { class, rules }))
}
