//! Many small calls on sets that are there: substitutions, and rounds of set algebra.
ghost use Rattle.std.specs.Prelude.{◌≡◌, ◌≤◌, ◌↔◌, ℕ, All, IfOk, IsTrue, length};
ghost use Rattle.dd_nodes.specs.NodeList.{IsNumber};

use crate::LIMIT;
use crate::clauses::{VARIABLES, next_conjunction};
use crate::extent::Extent;
use crate::random::Random;
use dd_nodes::{DdErr, Ref};
use dd_ops::Ops;
use std::alloc::Global;

/// The clauses of the large set.
const LARGE: u32 = 100;

/// The clauses of each small set, and of each set of middle size.
const SMALL: u32 = 10;

const MIDDLE: u32 = 17;

/// How many small sets there are, or sets of middle size.
const SETS: u32 = 16;

/// Replaces two of 60 variables in a large set, `count` times: a variable takes the value of the
/// next, and the next the opposite of its value.
pub fn replace_variables(alloc: Global, count: u32) -> Result<Extent, DdErr> {
    let Ok(mut ops) = Ops::new(alloc, VARIABLES, LIMIT) else {
        return Err(DdErr::Memory);
    };
    let large = next_conjunction(&mut ops, &mut Random::new(), LARGE)?;
    let mut last = Ref(0);
    for step in 0..count {
        let var = step % (VARIABLES - 1);
        let here = ops.var(var)?;
        let next = ops.var(var + 1)?;
        let opposite = ops.not(here)?;
        last = substitute(&mut ops, large, &[(var, next), (var + 1, opposite)])?;
    }
    extent_of(alloc, &ops, last)
}

/// Replaces four random variables by random constants in a small set, `count` times.
pub fn replace_by_constants(alloc: Global, count: u32) -> Result<Extent, DdErr> {
    let Ok(mut ops) = Ops::new(alloc, VARIABLES, LIMIT) else {
        return Err(DdErr::Memory);
    };
    let mut random = Random::new();
    let sets = make_sets(alloc, &mut ops, &mut random, SMALL)?;
    let mut last = Ref(0);
    for step in 0..count {
        let set = pick(&ops, &sets, step);
        let map = [
            (random.below(VARIABLES), Ref(random.below(2))),
            (random.below(VARIABLES), Ref(random.below(2))),
            (random.below(VARIABLES), Ref(random.below(2))),
            (random.below(VARIABLES), Ref(random.below(2))),
        ];
        last = substitute(&mut ops, set, &map)?;
    }
    extent_of(alloc, &ops, last)
}

/// Makes the meet, the difference and the join of two random sets of middle size, `count` times.
pub fn combine(alloc: Global, count: u32) -> Result<Extent, DdErr> {
    let Ok(mut ops) = Ops::new(alloc, VARIABLES, LIMIT) else {
        return Err(DdErr::Memory);
    };
    let mut random = Random::new();
    let sets = make_sets(alloc, &mut ops, &mut random, MIDDLE)?;
    let mut last = Ref(0);
    for _ in 0..count {
        last = combine_two(&mut ops, &sets, random.below(SETS), random.below(SETS))?;
    }
    extent_of(alloc, &ops, last)
}

/// The join of the meet and the difference of two sets, which are made on the way.
fn combine_two(ops: &mut Ops, sets: &[Ref], a: u32, b: u32) -> Result<Ref, DdErr> {
    let f = pick(ops, sets, a);
    let g = pick(ops, sets, b);
    let both = ops.and(f, g)?;
    let rest = ops.minus(g, f)?;
    ops.or(both, rest)
}

/// The conjunctions of so many clauses each.
fn make_sets(
    alloc: Global,
    ops: &mut Ops,
    random: &mut Random,
    clauses: u32,
) -> Result<Vec<Ref>, DdErr>
    requires { ops.old.vars ≡ 60 }
    ensures { ops.new.vars ≡ 60 }
{
    let mut sets = Vec::new(alloc);
    for _ in 0..SETS {
        let set = next_conjunction(ops, random, clauses)?;
        let Ok(()) = sets.push(set) else {
            return Err(DdErr::Memory);
        };
    }
    Ok(sets)
}

/// The set at a place, counted round and round; the empty set where there is none.
fn pick(ops: &Ops, sets: &[Ref], place: u32) -> Ref
    ensures { IsNumber ops.now.nodes result.0 }
{
    match sets.get((place % SETS) as usize) {
        Some(set) if is_number(ops, *set) => *set,
        _ => Ref(0),
    }
}

fn is_number(ops: &Ops, f: Ref) -> bool
    ensures { IsTrue result ↔ IsNumber ops.now.nodes f.0 }
{
    (f.0 as u64) < ops.table().len() as u64 + 2
}

/// Whether each entry of a list has a number of the table.
fn are_numbers(ops: &Ops, map: &[(u32, Ref)]) -> bool
    ensures { IsTrue result → All (λ entry. IsNumber ops.now.nodes entry.1.0) map.now }
{
    map.iter().all(|entry| is_number(ops, entry.1))
}

/// The set with the listed variables replaced.
fn substitute(ops: &mut Ops, f: Ref, map: &[(u32, Ref)]) -> Result<Ref, DdErr>
    ensures vars { ops.new.vars ≡ ops.old.vars }
    ensures longer { length ops.old.nodes ≤ length ops.new.nodes }
{
    if !is_number(ops, f) || !are_numbers(ops, map) {
        return Ok(Ref(0));
    }
    ops.subst(f, map)
}

/// The extent of a number, if it is in the table.
fn extent_of(alloc: Global, ops: &Ops, f: Ref) -> Result<Extent, DdErr> {
    let shown = if is_number(ops, f) { f } else { Ref(0) };
    Extent::of(alloc, ops.table(), shown).map_err(|_| DdErr::Memory)
}
