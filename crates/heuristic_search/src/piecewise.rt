//! The pairs of a policy as rules of a table.

use plan_rules::Rule;
use search_space::{Part, choices_of, cube_of};
use search_world::{Policy, World};
use std::alloc::AllocError;
use task_core::ActionId;

/// The most pieces of which a rule may consist.
const MOST_PIECES: usize = 64;

/// The pairs of a policy as rules, those of least distance first, so that two rules with different
/// actions have no state in common that is reached; or with such states, where the rules would become
/// too many otherwise.
pub(crate) fn rules_of(world: &World<'_>, policy: &Policy) -> Result<Vec<Rule>, AllocError> {
    let alloc = world.alloc;
    let mut order = Vec::new(alloc);
    for number in 0..policy.len() {
        order.push((policy.distance(number), number))?;
    }
    order.sort()?;
    let goal = choices_of(alloc, world.goal.cond, true)?;
    let mut rules = Vec::new(alloc);
    for (place, entry) in order.iter().enumerate() {
        let pieces = pieces_of(world, policy, &goal, &order[..place], entry.1)?;
        let action = ActionId(policy.action(entry.1));
        for piece in &pieces {
            let cube = cube_of(alloc, piece)?;
            rules.push(Rule { cube, action })?;
        }
    }
    Ok(rules)
}

/// A pair's partial state in pieces outside the goal and those of pairs before it with another action;
/// whole where they would be too many.
fn pieces_of(
    world: &World<'_>,
    policy: &Policy,
    goal: &[Part],
    before: &[(u32, u32)],
    number: u32,
) -> Result<Vec<Part>, AllocError> {
    let whole = policy.patterns.part(number);
    let mut pieces = Vec::new(world.alloc);
    pieces.push(whole)?;
    for part in goal {
        pieces = outside(world, &pieces, part)?;
    }
    for (_, other) in before {
        if policy.action(*other) != policy.action(number) {
            pieces = outside(world, &pieces, &policy.patterns.part(*other))?;
        }
    }
    if pieces.len() > MOST_PIECES {
        pieces = Vec::new(world.alloc);
        pieces.push(whole)?;
    }
    Ok(pieces)
}

/// What is left of partial states outside another one.
fn outside(world: &World<'_>, parts: &[Part], other: &Part) -> Result<Vec<Part>, AllocError> {
    let mut left = Vec::new(world.alloc);
    for part in parts {
        if !world.completed(part).agrees(other) {
            left.push(*part)?;
        } else if left.len() <= MOST_PIECES {
            push_outside(world, part, other, &mut left)?;
        }
    }
    Ok(left)
}

/// Adds what is left of a partial state outside another one.
fn push_outside(
    world: &World<'_>,
    part: &Part,
    other: &Part,
    left: &mut Vec<Part>,
) -> Result<(), AllocError> {
    let mut open = other.care.without(&part.care);
    let mut inside = *part;
    for _ in 0..256 {
        let Some(fluent) = open.take_first() else {
            break;
        };
        let mut piece = inside;
        piece.add(fluent, !other.value.get(fluent));
        if world.is_possible(&piece) {
            left.push(piece)?;
        }
        inside.add(fluent, other.value.get(fluent));
    }
    Ok(())
}
