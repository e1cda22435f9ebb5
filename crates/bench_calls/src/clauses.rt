//! A conjunction of random clauses.
ghost use Rattle.std.specs.Prelude.{◌≡◌, ◌≤◌, ◌<◌, IfOk, length};
ghost use Rattle.dd_nodes.specs.NodeList.{IsNumber};

use crate::LIMIT;
use crate::extent::Extent;
use crate::random::Random;
use dd_nodes::{DdErr, Ref};
use dd_ops::Ops;
use std::alloc::Global;

/// The number of variables.
pub const VARIABLES: u32 = 60;

/// The literals of a clause.
const LITERALS: u32 = 3;

/// Each literal has its variable from a part of so many. The parts of a clause lie side by side, at
/// a random place, so that the diagrams on the way stay small enough.
const PART: u32 = 8;

/// The conjunction of `count` clauses over 60 variables.
pub fn conjunction(alloc: Global, count: u32) -> Result<Extent, DdErr> {
    let Ok(mut ops) = Ops::new(alloc, VARIABLES, LIMIT) else {
        return Err(DdErr::Memory);
    };
    let all = next_conjunction(&mut ops, &mut Random::new(), count)?;
    Extent::of(alloc, ops.table(), all).map_err(|_| DdErr::Memory)
}

/// The conjunction of the next `count` clauses.
pub fn next_conjunction(ops: &mut Ops, random: &mut Random, count: u32) -> Result<Ref, DdErr>
    requires { ops.old.vars ≡ 60 }
    ensures number { IfOk result (λ r. IsNumber ops.new.nodes r.0) }
    ensures vars { ops.new.vars ≡ 60 }
{
    let mut all = Ref(1);
    for _ in 0..count {
        let clause = random_clause(ops, random)?;
        all = ops.and(all, clause)?;
    }
    Ok(all)
}

fn random_clause(ops: &mut Ops, random: &mut Random) -> Result<Ref, DdErr>
    requires { ops.old.vars ≡ 60 }
    ensures number { IfOk result (λ r. IsNumber ops.new.nodes r.0) }
    ensures longer { length ops.old.nodes ≤ length ops.new.nodes }
    ensures vars { ops.new.vars ≡ 60 }
{
    let mut clause = Ref(0);
    let first = random.below(VARIABLES - LITERALS * PART + 1);
    for part in 0..LITERALS {
        let variable = first + part * PART + random.below(PART);
        let mut literal = ops.var(variable)?;
        if random.below(2) == 1 {
            literal = ops.not(literal)?;
        }
        clause = ops.or(clause, literal)?;
    }
    Ok(clause)
}
