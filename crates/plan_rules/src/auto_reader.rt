//! Reads automata.

ghost use Rattle.std.specs.Prelude.{◌≡◌, ℕ, [], Some, IfOk, IfErr, map};
ghost use Rattle.std.specs.Option.{option_map};
ghost use Rattle.sexpr_text.specs.Flaws.{first_listed};
ghost use Rattle.sexpr_text.specs.Forest.{forest_of};
ghost use Rattle.sexpr_text.specs.Parts.{each_group, flaws_of_groups};
ghost use Rattle.sexpr_text.specs.Passes.{IfFault};
ghost use Rattle.plan_rules.specs.Items.{item_of};
ghost use Rattle.plan_rules.specs.PartsViews.{context_rule_view};
ghost use Rattle.plan_rules.specs.Readings.{
  automaton_flaws,
  automaton_tree,
  case_flaws,
  case_parts,
  case_tree,
  context_rule_parts,
  contexts_flaws,
  contexts_tree,
  next_flaws,
  next_tree,
  number_tree,
};
ghost use Rattle.plan_rules.specs.Rules.{case_of, next_of, plain_of};

use crate::items::{ContextRuleParts, first_item, split_group};
use crate::literals::{number_within, read_action, read_cube, read_number};
use crate::names::{NameTable, are_words};
use crate::rules::{AutoPlan, AutoRule, Case, Next, Plan};
use sexpr_text::{
    FaultKind, Form, GroupReader, ReadErr, Span, View, after_word, fault_at, is_nothing,
    read_groups,
};
use std::alloc::Global;

/// The number of contexts that a plan may have.
pub const MAX_CONTEXTS: u32 = 1_000_000;

/// Reads the cases of a rule's next context.
#[derive(Clone, Copy)]
pub(crate) struct CaseReader<'a> {
    pub(crate) fluents: &'a NameTable,
    pub(crate) contexts: u32,
}

impl GroupReader for CaseReader<'_> {
    ghost use Rattle.plan_rules.specs.Readings.{case_flaws, case_tree};
    ghost use Rattle.plan_rules.specs.Rules.{PlanCase, case_of};

    type Item = Case;

    ghost Tree = { PlanCase };

    ghost plain = { case_of };

    ghost tree = { λ self parts. case_tree self.fluents.now self.contexts parts };

    ghost flaws = { λ self span parts. case_flaws self.fluents.now self.contexts span
        parts };

    fn read(&self, alloc: Global, span: Span, parts: &[Form]) -> Result<Case, ReadErr> {
        match case_parts(parts) {
            Some((cube, context)) => Ok(Case {
                cube: read_cube(alloc, self.fluents, cube)?,
                context: read_number(self.contexts, context)?,
            }),
            None => Err(fault_at(span, FaultKind::BadForm)),
        }
    }
}

// The parts of `(LITERAL ..) CONTEXT`.
fn case_parts(parts: &[Form]) -> Option<(&[Form], View<'_>)>
    ensures { option_map (λ p. (forest_of p.0.now, item_of p.1)) result
        ≡ case_parts (forest_of parts.now) }
{
    let (_, cube, rest) = split_group(parts)?;
    let (context, rest) = first_item(rest)?;
    if is_nothing(rest) {
        Some((cube, context))
    } else {
        None
    }
}

// The next context, or the cases that say it.
fn read_next(
    alloc: Global,
    fluents: &NameTable,
    contexts: u32,
    form: View<'_>,
) -> Result<Next, ReadErr>
    ensures sound { IfOk result
        (λ next. next_flaws fluents.now contexts (item_of form.entry) ≡ []) }
    ensures read { IfOk result (λ next.
        next_of next ≡ next_tree fluents.now contexts (item_of form.entry)) }
    ensures fault { IfErr result (λ e. IfFault e (λ fault.
        first_listed (next_flaws fluents.now contexts (item_of form.entry))
        ≡ Some fault)) }
{
    match form {
        View::Word(_, _) => Ok(Next::One(read_number(contexts, form)?)),
        View::Group(_, parts) => Ok(Next::Cases(read_cases(alloc, fluents, contexts, parts)?)),
    }
}

// The cases that say the next context.
fn read_cases(
    alloc: Global,
    fluents: &NameTable,
    contexts: u32,
    row: &[Form],
) -> Result<Vec<Case>, ReadErr>
    ensures sound { IfOk result (λ cases.
        flaws_of_groups (case_flaws fluents.now contexts) (forest_of row.now) ≡ []) }
    ensures read { IfOk result (λ cases.
        map case_of cases.items
        ≡ each_group (case_tree fluents.now contexts) (forest_of row.now)) }
    ensures fault { IfErr result (λ e. IfFault e (λ fault.
        first_listed (flaws_of_groups (case_flaws fluents.now contexts)
        (forest_of row.now)) ≡ Some fault)) }
{
    read_groups(alloc, &CaseReader { fluents, contexts }, row)
}

/// Reads the rules of an automaton.
#[derive(Clone, Copy)]
pub(crate) struct ContextRuleReader<'a> {
    pub(crate) fluents: &'a NameTable,
    pub(crate) actions: &'a NameTable,
    pub(crate) contexts: u32,
}

impl GroupReader for ContextRuleReader<'_> {
    ghost use Rattle.plan_rules.specs.Readings.{context_rule_flaws, context_rule_tree};
    ghost use Rattle.plan_rules.specs.Rules.{ContextRule, context_rule_of};

    type Item = AutoRule;

    ghost Tree = { ContextRule };

    ghost plain = { context_rule_of };

    ghost tree = { λ self parts.
        context_rule_tree self.fluents.now self.actions.now self.contexts
        parts };

    ghost flaws = { λ self span parts.
        context_rule_flaws self.fluents.now self.actions.now self.contexts
        span parts };

    fn read(&self, alloc: Global, span: Span, parts: &[Form]) -> Result<AutoRule, ReadErr> {
        match rule_parts(parts) {
            Some(rule) => Ok(AutoRule {
                context: read_number(self.contexts, rule.context)?,
                cube: read_cube(alloc, self.fluents, rule.cube)?,
                action: read_action(alloc, self.actions, rule.action_span, rule.action)?,
                next: read_next(alloc, self.fluents, self.contexts, rule.next)?,
            }),
            None => Err(fault_at(span, FaultKind::BadForm)),
        }
    }
}

// The parts of `rule CONTEXT (LITERAL ..) (WORD ..) NEXT`.
fn rule_parts(parts: &[Form]) -> Option<ContextRuleParts<'_>>
    ensures { option_map context_rule_view result ≡ context_rule_parts (forest_of parts.now) }
{
    let (context, rest) = first_item(after_word(parts, b"rule")?)?;
    let (_, cube, rest) = split_group(rest)?;
    let (action_span, action, rest) = split_group(rest)?;
    let (next, rest) = first_item(rest)?;
    if is_nothing(rest) && are_words(action) {
        Some(ContextRuleParts {
            context,
            cube,
            action_span,
            action,
            next,
        })
    } else {
        None
    }
}

/// The automaton in what follows `plan automaton` in the list at `span`.
pub(crate) fn read_automaton(
    alloc: Global,
    fluents: &NameTable,
    actions: &NameTable,
    span: Span,
    row: &[Form],
) -> Result<Plan, ReadErr>
    ensures sound { IfOk result (λ plan.
        automaton_flaws fluents.now actions.now span (forest_of row.now)
        ≡ []) }
    ensures read { IfOk result (λ plan.
        plain_of plan ≡ automaton_tree fluents.now actions.now
        (forest_of row.now)) }
    ensures fault { IfErr result (λ e. IfFault e (λ fault.
        first_listed (automaton_flaws fluents.now actions.now span
        (forest_of row.now)) ≡ Some fault)) }
{
    match first_item(row) {
        Some((form, rest)) => read_contexts(alloc, fluents, actions, form, rest),
        None => Err(fault_at(span, FaultKind::BadForm)),
    }
}

// The automaton with the number of contexts that the form is, and the rules that follow it.
fn read_contexts(
    alloc: Global,
    fluents: &NameTable,
    actions: &NameTable,
    form: View<'_>,
    rest: &[Form],
) -> Result<Plan, ReadErr>
    ensures sound { IfOk result (λ plan.
        contexts_flaws fluents.now actions.now (item_of form.entry)
        (forest_of rest.now) ≡ []) }
    ensures read { IfOk result (λ plan.
        plain_of plan ≡ contexts_tree fluents.now actions.now
        (number_tree MAX_CONTEXTS (item_of form.entry)) (forest_of rest.now)) }
    ensures fault { IfErr result (λ e. IfFault e (λ fault.
        first_listed (contexts_flaws fluents.now actions.now
        (item_of form.entry) (forest_of rest.now)) ≡ Some fault)) }
{
    match form {
        View::Group(span, _) => Err(fault_at(span, FaultKind::BadForm)),
        View::Word(span, text) => match number_within(MAX_CONTEXTS, text) {
            None => Err(fault_at(span, FaultKind::BadNumber)),
            Some(contexts) => {
                let reader = ContextRuleReader {
                    fluents,
                    actions,
                    contexts,
                };
                let rules = read_groups(alloc, &reader, rest)?;
                Ok(Plan::Auto(AutoPlan { contexts, rules }))
            }
        },
    }
}
