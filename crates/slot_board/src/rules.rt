//! The rules of a plan, from the cubes of a set.

ghost use Rattle.std.specs.Prelude.{◌≡◌, ◌++◌, OnOk, map};
ghost use Rattle.plan_rules.specs.Rules.{rule_of};
ghost use Rattle.slot_board.specs.Rules.{rule_for};

use plan_rules::Rule;
use std::alloc::AllocError;
use task_core::{ActionId, Lit};

/// Adds the rule that takes an action where a cube matches, for each cube.
pub fn add_rules(
    rules: &mut Vec<Rule>,
    action: ActionId,
    cubes: Vec<Vec<Lit>>,
) -> Result<(), AllocError>
    ensures { OnOk result (map rule_of rules.new.items ≡ map rule_of rules.old.items
        ++ map (rule_for action.0) (map (λ cube. cube.items) cubes.items)) }
{
    for cube in cubes {
        rules.push(Rule { cube, action })?;
    }
    Ok(())
}
