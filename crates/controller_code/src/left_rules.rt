//! What is left of rules where some fluents have their values.

ghost use Rattle.controller_code.specs.FirstMoves.{
  first_move,
  move_of,
  next_number,
  plan_move,
};
ghost use Rattle.rule_lookup.specs.RunRules.{in_one_context};
ghost use Rattle.plan_rules.specs.Rules.{context_rule_of, next_of, rule_of};
ghost use Rattle.std.specs.Prelude.{◌≡◌, IfOk, IsTrue, false, map};
ghost use Rattle.task_core.specs.Cubes.{matches};
ghost use Rattle.task_core.specs.Vectors.{Vector, value_of};

use crate::steps::{Move, mix};
use plan_rules::{AutoRule, FIRST_CONTEXT, Next, Rule};
use std::alloc::{AllocError, Global};
use task_core::{FluentId, Lit};

/// A rule, with the literals that are still to be asked for.
#[derive(Drop)]
pub(crate) struct LeftRule {
    pub(crate) cube: Vec<Lit>,
    pub(crate) action: Move,
}

/// The rules of a table, which stay in the first context.
pub(crate) fn of_table(alloc: Global, rules: &[Rule]) -> Result<Vec<LeftRule>, AllocError>
    ensures { IfOk result (λ left. (v : Vector) → first_move left.items v
        ≡ plan_move (map in_one_context (map rule_of rules.now)) 1 v) }
{
    let mut left = Vec::new(alloc);
    for rule in rules {
        left.push(LeftRule {
            cube: copy_of(alloc, &rule.cube)?,
            action: Move {
                action: rule.action,
                next: FIRST_CONTEXT,
            },
        })?;
    }
    Ok(left)
}

pub(crate) fn of_context(
    alloc: Global,
    rules: &[AutoRule],
    context: u32,
) -> Result<Vec<LeftRule>, AllocError>
    ensures { IfOk result (λ left. (v : Vector) → first_move left.items v
        ≡ plan_move (map context_rule_of rules.now) context v) }
{
    let mut left = Vec::new(alloc);
    for rule in rules {
        if rule.context == context {
            left.push(LeftRule {
                cube: copy_of(alloc, &rule.cube)?,
                action: move_in(rule),
            })?;
        }
    }
    Ok(left)
}

fn move_in(rule: &AutoRule) -> Move
    ensures { result ≡ move_of (context_rule_of rule.now) }
{
    Move {
        action: rule.action,
        next: number_of(&rule.next),
    }
}

/// The number of the next context; 0 where it depends on the new state.
pub(crate) fn number_of(next: &Next) -> u32
    ensures { result ≡ next_number (next_of next.now) }
{
    match next {
        Next::One(context) => *context,
        Next::Cases(_) => 0,
    }
}

fn copy_of(alloc: Global, cube: &[Lit]) -> Result<Vec<Lit>, AllocError>
    ensures { IfOk result (λ copy. copy.items ≡ cube.now) }
{
    Vec::from_slice(alloc, cube)
}

/// What is left of rules where a fluent has a value: those that don't ask for the other one.
pub(crate) fn left_where(
    alloc: Global,
    rules: &[LeftRule],
    fluent: FluentId,
    value: bool,
) -> Result<Vec<LeftRule>, AllocError>
    ensures { IfOk result (λ left. (v : Vector) → value_of v fluent.0 ≡ value
        → first_move left.items v ≡ first_move rules.now v) }
{
    let mut left = Vec::new(alloc);
    for rule in rules {
        if !asks_other(&rule.cube, fluent, value) {
            left.push(LeftRule {
                cube: without(alloc, &rule.cube, fluent, value)?,
                action: rule.action,
            })?;
        }
    }
    Ok(left)
}

fn asks_other(cube: &[Lit], fluent: FluentId, value: bool) -> bool
    ensures { IsTrue result → (v : Vector) → value_of v fluent.0 ≡ value
        → matches cube.now v ≡ false }
{
    for lit in cube {
        if is_given(lit, fluent, !value) {
            return true;
        }
    }
    false
}

/// A cube without the literals that ask for this value of a fluent.
fn without(
    alloc: Global,
    cube: &[Lit],
    fluent: FluentId,
    value: bool,
) -> Result<Vec<Lit>, AllocError>
    ensures { IfOk result (λ rest. (v : Vector) → value_of v fluent.0 ≡ value
        → matches rest.items v ≡ matches cube.now v) }
{
    let mut rest = Vec::new(alloc);
    for lit in cube {
        if !is_given(lit, fluent, value) {
            rest.push(*lit)?;
        }
    }
    Ok(rest)
}

/// Whether a literal asks for this value of a fluent.
fn is_given(lit: &Lit, fluent: FluentId, value: bool) -> bool
    ensures fluent { IsTrue result → lit.now.fluent ≡ fluent }
    ensures value { IsTrue result → lit.now.positive ≡ value }
{
    lit.fluent == fluent && lit.positive == value
}

pub(crate) fn are_same(rules: &[LeftRule], others: &[LeftRule]) -> bool
    ensures { IsTrue result → (v : Vector) → first_move rules.now v ≡ first_move others.now v }
{
    if rules.len() != others.len() {
        return false;
    }
    for place in 0..rules.len() {
        if !is_same(&rules[place], &others[place]) {
            return false;
        }
    }
    true
}

fn is_same(rule: &LeftRule, other: &LeftRule) -> bool
    ensures cube { IsTrue result → rule.now.cube.items ≡ other.now.cube.items }
    ensures action { IsTrue result → rule.now.action ≡ other.now.action }
{
    rule.action == other.action && is_same_cube(&rule.cube, &other.cube)
}

/// Whether two cubes have the same literals in the same order.
fn is_same_cube(cube: &[Lit], other: &[Lit]) -> bool
    ensures { IsTrue result → cube.now ≡ other.now }
{
    if cube.len() != other.len() {
        return false;
    }
    for place in 0..cube.len() {
        if cube[place] != other[place] {
            return false;
        }
    }
    true
}

/// A number that is mostly another for other rules.
pub(crate) fn key_of(rules: &[LeftRule]) -> u64 {
    let mut key = rules.len() as u64;
    for rule in rules {
        key = mix(
            key,
            mix(u64::from(rule.action.action.0), u64::from(rule.action.next)),
        );
        for lit in &rule.cube {
            key = mix(key, mix(u64::from(lit.fluent.0), u64::from(lit.positive)));
        }
    }
    key
}
