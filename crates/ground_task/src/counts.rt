//! How many outcomes an effect has, counted without building them.

ghost use Rattle.std.specs.Prelude.{◌≡◌, ◌+◌, ◌*◌, ◌^◌, Some, length, map, nat_le, IfOk};
ghost use Rattle.std.specs.List.{list_all};
ghost use Rattle.ground_instances.specs.Kept.{instance_of, kept_by};
ghost use Rattle.ground_instances.specs.Tables.{setting_in};
ghost use Rattle.ground_task.specs.Capped.{capped, has_few};
ghost use Rattle.pddl_ast.specs.Values.{domain_value, effect_value, schema_value};
ghost use Rattle.pddl_system.specs.Outcomes.{outcomes_of};
ghost use Rattle.pddl_system.specs.Sizes.{most_outcomes_of_one, outcome_count};

use ground_instances::{Instance, Setting};
use pddl_ast::{Domain, Effect, Schema};
use std::alloc::{AllocError, Global};

/// Where counts of outcomes stand: one more than the most outcomes of an action.
const BOUND: usize = 65;

/// A product of two counts.
fn product(a: usize, b: usize) -> usize
    ensures { result ≡ capped (a * b) }
{
    a.saturating_mul(b).min(BOUND)
}

/// A sum of two counts.
fn total(a: usize, b: usize) -> usize
    ensures { result ≡ capped (a + b) }
{
    a.saturating_add(b).min(BOUND)
}

/// A power of a count. Beyond the bound every exponent gives the same.
fn power(base: usize, exponent: usize) -> usize
    ensures { result ≡ capped (base ^ exponent) }
{
    let mut value = 1;
    for _i in 0..exponent.min(BOUND) {
        value = product(value, base);
    }
    value
}

/// How many outcomes an effect has; 65 where there are more than 64.
pub(crate) fn outcome_count(setting: &Setting, effect: &Effect) -> usize
    ensures { result
        ≡ capped (outcome_count (setting_in setting.now).objects (effect_value effect.now)) }
{
    match effect {
        Effect::Add(_, _) | Effect::Delete(_, _) => 1,
        Effect::Both(parts) => {
            let mut count = 1;
            for part in parts {
                count = product(count, outcome_count(setting, part));
            }
            count
        }
        Effect::OneOf(parts) => {
            let mut count = 0;
            for part in parts {
                count = total(count, outcome_count(setting, part));
            }
            count
        }
        Effect::When(_, part) => outcome_count(setting, part),
        Effect::Each(types, part) => {
            power(outcome_count(setting, part), setting.binding_count(types))
        }
    }
}

/// For each action whether it has at most 64 outcomes.
fn few_outcomes(
    alloc: Global,
    setting: &Setting,
    schemas: &[Schema],
) -> Result<Vec<bool>, AllocError>
    ensures { IfOk result (λ few. few.items
        ≡ map (has_few (setting_in setting.now)) (map schema_value schemas.now)) }
{
    let mut few = Vec::new(alloc);
    for schema in schemas {
        few.push(outcome_count(setting, &schema.effect) < BOUND)?;
    }
    Ok(few)
}

/// Whether each of the kept instances has at most 64 outcomes.
pub(crate) fn has_few_outcomes(
    alloc: Global,
    setting: &Setting,
    domain: &Domain,
    instances: &[Instance],
) -> Result<bool, AllocError>
    requires { map (instance_of (domain_value domain.now)) instances.now
        ≡ map Some (kept_by (setting_in setting.now) (domain_value domain.now)) }
    ensures { IfOk result (λ few. few
        ≡ list_all (λ i. nat_le (length (outcomes_of (setting_in setting.now) i)) most_outcomes_of_one)
        (kept_by (setting_in setting.now) (domain_value domain.now))) }
{
    let few = few_outcomes(alloc, setting, &domain.actions)?;
    for instance in instances {
        if !few[instance.action] {
            return Ok(false);
        }
    }
    Ok(true)
}
