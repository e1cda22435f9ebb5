//! The goal in computation tree logic over a task's conditions.

ghost use Rattle.std.specs.Prelude.{◌≡◌, [], IfOk, map};
ghost use Rattle.std.specs.Option.{option_map};
ghost use Rattle.ctl_syntax.specs.Goals.{plain};
ghost use Rattle.ground_instances.specs.Tables.{setting_in};
ghost use Rattle.pddl_ast.specs.Values.{formula_value, temporal_value};
ghost use Rattle.pddl_system.specs.CtlGoals.{binary_goal, goal_value, grounded_goal, unary_goal};
ghost use Rattle.pddl_system.specs.Tasks.{condition_of};

use crate::conditions::condition;
use crate::fluents::Fluents;
use ctl_syntax::Ctl;
use ground_instances::Setting;
use pddl_ast::{BinaryOperator, Formula, Temporal, UnaryOperator};
use std::alloc::{AllocError, Global};

/// The goal that an operator makes of one goal.
fn unary(alloc: Global, operator: UnaryOperator, part: Ctl) -> Result<Ctl, AllocError>
    ensures { IfOk result (λ goal. goal_value goal ≡ unary_goal operator (goal_value part)) }
{
    let part = Box::new(alloc, part)?;
    match operator {
        UnaryOperator::Ax => Ok(Ctl::Ax(part)),
        UnaryOperator::Ex => Ok(Ctl::Ex(part)),
        UnaryOperator::Af => Ok(Ctl::Af(part)),
        UnaryOperator::Ef => Ok(Ctl::Ef(part)),
        UnaryOperator::Ag => Ok(Ctl::Ag(part)),
        UnaryOperator::Eg => Ok(Ctl::Eg(part)),
    }
}

/// The goal that an operator makes of two goals.
fn binary(alloc: Global, operator: BinaryOperator, left: Ctl, right: Ctl) -> Result<Ctl, AllocError>
    ensures { IfOk result (λ goal.
        goal_value goal ≡ binary_goal operator (goal_value left) (goal_value right)) }
{
    let left = Box::new(alloc, left)?;
    let right = Box::new(alloc, right)?;
    match operator {
        BinaryOperator::Au => Ok(Ctl::Au(left, right)),
        BinaryOperator::Eu => Ok(Ctl::Eu(left, right)),
        BinaryOperator::Aw => Ok(Ctl::Aw(left, right)),
        BinaryOperator::Ew => Ok(Ctl::Ew(left, right)),
    }
}

/// A formula's condition as a goal.
fn plain_goal(
    alloc: Global,
    setting: &Setting,
    fluents: &Fluents,
    formula: &Formula,
) -> Result<Ctl, AllocError>
    ensures { IfOk result (λ goal. goal_value goal
        ≡ plain (condition_of (setting_in setting.now) fluents.now
        (formula_value formula.now) [])) }
{
    let mut scope = Vec::new(alloc);
    let cond = condition(alloc, setting, fluents, formula, &mut scope)?;
    Ok(Ctl::Plain(cond))
}

/// Some goals over conditions.
#[cycle(grounding_goals)]
fn goals_over_conditions(
    alloc: Global,
    setting: &Setting,
    fluents: &Fluents,
    parts: &[Temporal],
) -> Result<Vec<Ctl>, AllocError>
    ensures { IfOk result (λ goals. map goal_value goals.items
        ≡ map (grounded_goal (setting_in setting.now) fluents.now) (map temporal_value parts.now)) }
{
    let mut goals = Vec::new(alloc);
    for part in parts {
        goals.push(goal_over_conditions(alloc, setting, fluents, part)?)?;
    }
    Ok(goals)
}

/// A goal over conditions: the condition of each formula stands in its place.
#[cycle(grounding_goals)]
fn goal_over_conditions(
    alloc: Global,
    setting: &Setting,
    fluents: &Fluents,
    goal: &Temporal,
) -> Result<Ctl, AllocError>
    ensures { IfOk result (λ made. goal_value made
        ≡ grounded_goal (setting_in setting.now) fluents.now (temporal_value goal.now)) }
{
    match goal {
        Temporal::Plain(formula) => Ok(plain_goal(alloc, setting, fluents, formula)?),
        Temporal::Not(part) => {
            let made = goal_over_conditions(alloc, setting, fluents, part)?;
            Ok(Ctl::Not(Box::new(alloc, made)?))
        }
        Temporal::All(parts) => {
            Ok(Ctl::All(goals_over_conditions(alloc, setting, fluents, parts)?))
        }
        Temporal::Any(parts) => {
            Ok(Ctl::Any(goals_over_conditions(alloc, setting, fluents, parts)?))
        }
        Temporal::Imply(left, right) => {
            let first = goal_over_conditions(alloc, setting, fluents, left)?;
            let second = goal_over_conditions(alloc, setting, fluents, right)?;
            Ok(Ctl::Imply(Box::new(alloc, first)?, Box::new(alloc, second)?))
        }
        Temporal::Unary(operator, part) => {
            let made = goal_over_conditions(alloc, setting, fluents, part)?;
            Ok(unary(alloc, *operator, made)?)
        }
        Temporal::Binary(operator, left, right) => {
            let first = goal_over_conditions(alloc, setting, fluents, left)?;
            let second = goal_over_conditions(alloc, setting, fluents, right)?;
            Ok(binary(alloc, *operator, first, second)?)
        }
    }
}

/// The goal over conditions, where there is a goal in computation tree logic. Fails only where
/// memory runs out, or where a quantifier has more than 1,000,000 bindings, which no goal within
/// the limit of size has.
pub(crate) fn ctl_goal(
    alloc: Global,
    setting: &Setting,
    fluents: &Fluents,
    goal: &Option<Temporal>,
) -> Result<Option<Ctl>, AllocError>
    ensures { IfOk result (λ made. option_map goal_value made
        ≡ option_map (grounded_goal (setting_in setting.now) fluents.now)
        (option_map temporal_value goal.now)) }
{
    match goal {
        None => Ok(None),
        Some(goal) => {
            let made = goal_over_conditions(alloc, setting, fluents, goal)?;
            Ok(Some(made))
        }
    }
}
