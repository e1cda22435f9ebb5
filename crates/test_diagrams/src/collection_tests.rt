//! Small tables over four fluents that fill up, against truth tables: a call is refused exactly
//! where the live sets and its answer have more nodes than the table may hold, and where it is not,
//! a collection makes room for ever.
ghost use Rattle.std.specs.Prelude.{◌≡◌, ◌<◌, ◌≤◌, All, IfOk, OnOk};
ghost use Rattle.dd_sets.specs.Calls.{KeepsSets};
ghost use Rattle.dd_sets.specs.LiveSets.{IsLive};

use crate::set_tests::{
    FLUENTS, Known, add, complements, joins, meets, pick, replaced, replaces, subtracts, truth,
};
use dd_sets::{SetErr, SetId, Sets};
use std::alloc::{AllocError, Global};
use std::test::Fail;
use task_core::FluentId;

/// A truth table with one of the four fluents fixed.
fn fixed(table: u16, fluent: usize, value: bool) -> u16
    requires { fluent < 4 }
{
    let mut images = FLUENTS;
    images[fluent] = if value { 0xffff } else { 0 };
    replaced(table, images)
}

/// Adds a truth table to a list that does not have it, unless it is a constant.
fn add_part(parts: &mut Vec<u16>, table: u16) -> Result<(), AllocError> {
    if table != 0 && table != 0xffff && !parts.contains(&table) {
        parts.push(table)?;
    }
    Ok(())
}

/// Adds the subfunctions of a truth table to a list: what it becomes with the first fluents fixed.
/// As many are in the list, then, as its diagrams have nodes.
fn add_parts(parts: &mut Vec<u16>, table: u16) -> Result<(), AllocError> {
    let mut level = [table; 16];
    add_part(parts, table)?;
    for fluent in 0..4usize {
        let mut next = [table; 16];
        for place in 0..8usize {
            next[2 * place] = fixed(level[place], fluent, false);
            next[2 * place + 1] = fixed(level[place], fluent, true);
        }
        level = next;
        for part in level {
            add_part(parts, part)?;
        }
    }
    Ok(())
}

/// The subfunctions of some sets.
fn parts_of(alloc: Global, known: &[Known]) -> Result<Vec<u16>, AllocError> {
    let mut parts = Vec::new(alloc);
    for k in known {
        add_parts(&mut parts, k.1)?;
    }
    Ok(parts)
}

/// Whether each set of a list has its truth table.
fn are_kept(sets: &Sets, known: &[Known]) -> bool
    requires { All (λ k. IsLive sets.now k.0.0) known.now }
{
    for k in known {
        if truth(sets, k.0) != k.1 {
            return false;
        }
    }
    true
}

/// The join of two sets, or the complement of the first.
fn combine(sets: &mut Sets, is_join: bool, f: Known, g: Known) -> Result<SetId, SetErr>
    requires f_live { IsLive sets.old f.0.0 }
    requires g_live { IsLive sets.old g.0.0 }
    ensures live { IfOk result (λ slot. IsLive sets.new slot.0) }
    ensures kept { KeepsSets sets.old sets.new }
{
    if is_join {
        sets.join(f.0, g.0)
    } else {
        sets.complement(f.0)
    }
}

/// The empty set and the values of the four fluents, as far as there is room.
#[tactic(auto, using(dd_sets::proofs::FrameLemmas::all_kept))]
fn start(alloc: Global, sets: &mut Sets) -> Result<Vec<Known>, Fail>
    requires { sets.old.vars ≡ 4 }
    ensures { IfOk result (λ known. All (λ k. IsLive sets.new k.0.0) known.items) }
{
    let mut known = Vec::new(alloc);
    let none = sets.none()?;
    add(sets, &mut known, none, 0)?;
    for f in 0..4u32 {
        match sets.of_fluent(FluentId(f)) {
            Ok(slot) => add(sets, &mut known, slot, FLUENTS[f as usize])?,
            Err(SetErr::Full) => {}
            Err(e) => return Err(Fail::from(e)),
        }
    }
    Ok(known)
}

/// What became of a step: it was answered, or there was no room and each set is as it was, or
/// either was wrong.
#[derive(Clone, Copy)]
enum Step {
    Answered,
    Refused,
    Wrong,
}

/// A join of the sets at two places, or the complement of the first of them.
#[derive(Clone, Copy)]
struct Growth {
    is_join: bool,
    places: (usize, usize),
}

/// Adds a set to a list, and its subfunctions to theirs, if there is room.
#[tactic(auto, using(dd_sets::proofs::FrameLemmas::all_kept))]
fn grow(
    sets: &mut Sets,
    known: &mut Vec<Known>,
    parts: &mut Vec<u16>,
    growth: Growth,
    limit: u32,
) -> Result<Step, Fail>
    requires { All (λ k. IsLive sets.old k.0.0) known.old.items }
    ensures { OnOk result (All (λ k. IsLive sets.new k.0.0) known.new.items) }
{
    let Growth { is_join, places } = growth;
    let f = pick(sets, known, places.0).ok_or("a set is missing")?;
    let g = pick(sets, known, places.1).ok_or("a set is missing")?;
    let table = if is_join { f.1 | g.1 } else { !f.1 };
    let mut more = parts.clone()?;
    add_parts(&mut more, table)?;
    let has_room = more.len() <= limit as usize;
    match combine(sets, is_join, f, g) {
        Ok(slot) => {
            add(sets, known, slot, table)?;
            *parts = more;
            Ok(if has_room {
                Step::Answered
            } else {
                Step::Wrong
            })
        }
        Err(SetErr::Full) if !has_room && are_kept(sets, known) => Ok(Step::Refused),
        Err(SetErr::Full) => Ok(Step::Wrong),
        Err(e) => Err(Fail::from(e)),
    }
}

/// Two places of a list of so many sets.
fn places(seed: u32, count: usize) -> (usize, usize) {
    let count = count.max(1);
    ((seed >> 8) as usize % count, (seed >> 20) as usize % count)
}

/// The next of a row of pseudo-random numbers.
fn next(seed: u32) -> u32 {
    seed.wrapping_mul(1664525).wrapping_add(1013904223)
}

/// Fills a table by joins and complements over four fluents, and counts the refusals; `None` where
/// an answer or a refusal was wrong.
fn fill(alloc: Global, sets: &mut Sets, limit: u32) -> Result<Option<u32>, Fail>
    requires { sets.old.vars ≡ 4 }
{
    let mut known = start(alloc, sets)?;
    let mut parts = parts_of(alloc, &known)?;
    let mut refusals = 0u32;
    let mut seed = 1u32;
    for step in 0..200u32 {
        seed = next(seed);
        let growth = Growth {
            is_join: step % 2 == 0,
            places: places(seed, known.len()),
        };
        match grow(sets, &mut known, &mut parts, growth, limit)? {
            Step::Answered => {}
            Step::Refused => refusals = refusals.saturating_add(1),
            Step::Wrong => return Ok(None),
        }
    }
    Ok(Some(refusals))
}

/// The same from no set on.
fn fill_anew(alloc: Global, limit: u32) -> Result<Option<u32>, Fail>
    requires some { 0 < limit }
    requires few { limit ≤ 40 }
{
    let mut sets = Sets::new(alloc, 4, limit)?;
    fill(alloc, &mut sets, limit)
}

#[test]
fn slots_keep_their_sets_when_full(rt: HostRuntime) -> Result<(), Fail> {
    for limit in 1..41u32 {
        let refusals = fill_anew(rt.alloc(), limit)?.ok_or("a call was wrong")?;
        assert!(rt; refusals > 0, "at {limit}");
    }
    Ok(())
}

/// Which operation a step tries.
#[derive(Clone, Copy)]
enum Kind {
    Meet,
    Join,
    Minus,
    Complement,
    Subst,
}

/// The truth table of an answer.
fn answer_of(kind: Kind, f: u16, g: u16) -> u16 {
    match kind {
        Kind::Meet => f & g,
        Kind::Join => f | g,
        Kind::Minus => f & !g,
        Kind::Complement => !f,
        Kind::Subst => replaced(f, [g, f, FLUENTS[2], FLUENTS[3]]),
    }
}

/// Whether an operation answers by truth tables. Its answer's slot ends.
fn operate(sets: &mut Sets, kind: Kind, f: Known, g: Known) -> Result<bool, SetErr>
    requires f_live { IsLive sets.old f.0.0 }
    requires g_live { IsLive sets.old g.0.0 }
    ensures { KeepsSets sets.old sets.new }
{
    match kind {
        Kind::Meet => meets(sets, f, g),
        Kind::Join => joins(sets, f, g),
        Kind::Minus => subtracts(sets, f, g),
        Kind::Complement => complements(sets, f),
        Kind::Subst => replaces(sets, f, g, f),
    }
}

/// Adds what an operation may make besides its answer: for a substitution this is what the
/// subfunctions become, and the two fluents that stay.
fn add_pieces(
    alloc: Global,
    parts: &mut Vec<u16>,
    kind: Kind,
    f: u16,
    g: u16,
) -> Result<(), AllocError> {
    if let Kind::Subst = kind {
        let mut below = Vec::new(alloc);
        add_parts(&mut below, f)?;
        for part in &below {
            add_parts(parts, answer_of(kind, *part, g))?;
        }
        add_part(parts, FLUENTS[2])?;
        add_part(parts, FLUENTS[3])?;
    }
    Ok(())
}

fn kind_of(step: u32) -> Kind {
    match step % 5 {
        0 => Kind::Meet,
        1 => Kind::Join,
        2 => Kind::Minus,
        3 => Kind::Complement,
        _ => Kind::Subst,
    }
}

/// An operation on the sets at two places.
#[derive(Clone, Copy)]
struct Operation {
    kind: Kind,
    places: (usize, usize),
}

/// Tries an operation on two sets of a list, and asks for each set of the list afterwards.
fn work(
    alloc: Global,
    sets: &mut Sets,
    known: &[Known],
    operation: Operation,
    limit: u32,
) -> Result<Step, Fail>
    requires { All (λ k. IsLive sets.old k.0.0) known.now }
    ensures { OnOk result (KeepsSets sets.old sets.new) }
{
    let Operation { kind, places } = operation;
    let f = pick(sets, known, places.0).ok_or("a set is missing")?;
    let g = pick(sets, known, places.1).ok_or("a set is missing")?;
    let mut parts = parts_of(alloc, known)?;
    add_parts(&mut parts, answer_of(kind, f.1, g.1))?;
    let has_room = parts.len() <= limit as usize;
    add_pieces(alloc, &mut parts, kind, f.1, g.1)?;
    let step = match operate(sets, kind, f, g) {
        Ok(true) if has_room => Step::Answered,
        Ok(_) => Step::Wrong,
        Err(SetErr::Full) if parts.len() > limit as usize => Step::Refused,
        Err(SetErr::Full) => Step::Wrong,
        Err(e) => return Err(Fail::from(e)),
    };
    Ok(if are_kept(sets, known) {
        step
    } else {
        Step::Wrong
    })
}

/// Works on few sets in a small table, and counts the answers; `None` where a call was wrong.
#[tactic(auto, using(dd_sets::proofs::FrameLemmas::all_kept))]
fn run(alloc: Global, sets: &mut Sets, limit: u32) -> Result<Option<u32>, Fail>
    requires { sets.old.vars ≡ 4 }
{
    let known = start(alloc, sets)?;
    let mut answers = 0u32;
    let mut seed = 1u32;
    for step in 0..200u32 {
        seed = next(seed);
        let operation = Operation {
            kind: kind_of(step),
            places: places(seed, known.len()),
        };
        match work(alloc, sets, &known, operation, limit)? {
            Step::Answered => answers = answers.saturating_add(1),
            Step::Refused => {}
            Step::Wrong => return Ok(None),
        }
    }
    Ok(Some(answers))
}

/// The same from no set on.
fn run_anew(alloc: Global, limit: u32) -> Result<Option<u32>, Fail>
    requires some { 0 < limit }
    requires few { limit ≤ 40 }
{
    let mut sets = Sets::new(alloc, 4, limit)?;
    run(alloc, &mut sets, limit)
}

/// Each answer leaves its nodes without a set, so the small tables are full again every few calls.
#[test]
fn operations_go_on_in_small_tables(rt: HostRuntime) -> Result<(), Fail> {
    for limit in 1..20u32 {
        let answers = run_anew(rt.alloc(), limit)?.ok_or("a call was wrong")?;
        assert!(rt; answers > 100, "at {limit}");
    }
    Ok(())
}

/// Makes a node and ends the slot of its set.
#[tactic(auto, using(dd_sets::proofs::FrameLemmas::kept_release))]
fn leave_node(sets: &mut Sets) -> Result<(), SetErr>
    requires { sets.old.vars ≡ 4 }
    ensures { KeepsSets sets.old sets.new }
{
    let left = sets.of_fluent(FluentId(0))?;
    sets.release(left);
    Ok(())
}

/// Whether a set is there after the table of two nodes was collected, where its number is another.
fn is_moved(sets: &mut Sets) -> Result<bool, SetErr>
    requires { sets.old.vars ≡ 4 }
{
    leave_node(sets)?;
    let first = sets.of_fluent(FluentId(1))?;
    let second = sets.of_fluent(FluentId(2))?;
    Ok(truth(sets, first) == FLUENTS[1] && truth(sets, second) == FLUENTS[2])
}

/// The same from no set on.
fn is_moved_anew(alloc: Global) -> Result<bool, Fail> {
    let mut sets = Sets::new(alloc, 4, 2)?;
    Ok(is_moved(&mut sets)?)
}

#[test]
fn sets_stay_where_numbers_move(rt: HostRuntime) -> Result<(), Fail> {
    assert!(rt; is_moved_anew(rt.alloc())?);
    Ok(())
}
