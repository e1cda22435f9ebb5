//! Every operation at every set over three fluents, against truth tables.
ghost use Rattle.std.specs.Prelude.{◌<◌, ◌≤◌, All, IfOk, IfSome, OnOk};
ghost use Rattle.dd_sets.specs.Calls.{KeepsSets, Releases};
ghost use Rattle.dd_sets.specs.LiveSets.{IsLive};

use dd_sets::{Cube, Listing, SetErr, SetId, Sets};
use std::alloc::{AllocError, Global};
use std::test::Fail;
use task_core::{FluentId, State};

/// A slot and the truth table of its set: bit `s` says whether the state is in the set whose first
/// fluents have the values of the bits of `s`.
pub type Known = (SetId, u16);

/// The truth tables of four fluents.
pub const FLUENTS: [u16; 4] = [0xaaaa, 0xcccc, 0xf0f0, 0xff00];

/// The state whose first four fluents have the values of the bits of a number.
fn state(bits: u32) -> State {
    let mut state = State::none();
    for f in 0..4u32 {
        state = state.with(FluentId(f), bits >> f & 1 == 1);
    }
    state
}

/// The truth table of a slot's set.
pub fn truth(sets: &Sets, a: SetId) -> u16
    requires { IsLive sets.now a.0 }
{
    let mut table = 0;
    for s in 0..16u32 {
        if sets.holds(a, &state(s)) {
            table |= 1u16 << s;
        }
    }
    table
}

/// Whether a slot's set has a truth table; it ends the slot.
fn had(sets: &mut Sets, made: SetId, table: u16) -> bool
    requires { IsLive sets.old made.0 }
    ensures { Releases sets.old sets.new made.0 }
{
    let is_right = truth(sets, made) == table;
    sets.release(made);
    is_right
}

#[tactic(auto, using(dd_sets::proofs::FrameLemmas::kept_release))]
pub fn meets(sets: &mut Sets, f: Known, g: Known) -> Result<bool, SetErr>
    requires f_live { IsLive sets.old f.0.0 }
    requires g_live { IsLive sets.old g.0.0 }
    ensures { KeepsSets sets.old sets.new }
{
    let made = sets.meet(f.0, g.0)?;
    Ok(had(sets, made, f.1 & g.1))
}

#[tactic(auto, using(dd_sets::proofs::FrameLemmas::kept_release))]
pub fn joins(sets: &mut Sets, f: Known, g: Known) -> Result<bool, SetErr>
    requires f_live { IsLive sets.old f.0.0 }
    requires g_live { IsLive sets.old g.0.0 }
    ensures { KeepsSets sets.old sets.new }
{
    let made = sets.join(f.0, g.0)?;
    Ok(had(sets, made, f.1 | g.1))
}

#[tactic(auto, using(dd_sets::proofs::FrameLemmas::kept_release))]
pub fn subtracts(sets: &mut Sets, f: Known, g: Known) -> Result<bool, SetErr>
    requires f_live { IsLive sets.old f.0.0 }
    requires g_live { IsLive sets.old g.0.0 }
    ensures { KeepsSets sets.old sets.new }
{
    let made = sets.minus(f.0, g.0)?;
    Ok(had(sets, made, f.1 & !g.1))
}

#[tactic(auto, using(dd_sets::proofs::FrameLemmas::kept_release))]
pub fn complements(sets: &mut Sets, f: Known) -> Result<bool, SetErr>
    requires { IsLive sets.old f.0.0 }
    ensures { KeepsSets sets.old sets.new }
{
    let made = sets.complement(f.0)?;
    Ok(had(sets, made, !f.1))
}

#[tactic(auto, using(dd_sets::proofs::FrameLemmas::kept_release))]
fn copies(sets: &mut Sets, f: Known) -> Result<bool, SetErr>
    requires { IsLive sets.old f.0.0 }
    ensures { KeepsSets sets.old sets.new }
{
    let made = sets.copy(f.0)?;
    Ok(had(sets, made, f.1))
}

fn has_state(cube: &Cube, s: u32) -> bool {
    cube.iter().all(|lit| lit.fluent.0 < 32 && (s >> lit.fluent.0 & 1 == 1) == lit.positive)
}

/// Whether the cubes of a set have the states of its truth table alone.
fn has_cubes(sets: &Sets, f: Known) -> Result<bool, Fail>
    requires { IsLive sets.now f.0.0 }
{
    let mut listing = Listing::new();
    let cubes = sets.cubes(f.0, &mut listing)?;
    for s in 0..16u32 {
        let is_in = cubes.iter().any(|cube| has_state(cube, s));
        if is_in != (f.1 >> s & 1 == 1) {
            return Ok(false);
        }
    }
    Ok(true)
}

/// Whether the tests of two sets answer by their truth tables.
fn compares(sets: &mut Sets, f: Known, g: Known) -> Result<bool, SetErr>
    requires f_live { IsLive sets.old f.0.0 }
    requires g_live { IsLive sets.old g.0.0 }
    ensures { KeepsSets sets.old sets.new }
{
    let is_inside = sets.inside(f.0, g.0)?;
    let is_none = sets.is_none(f.0);
    Ok(
        is_inside == (f.1 & !g.1 == 0)
            && is_none == (f.1 == 0)
            && sets.same(f.0, g.0) == (f.1 == g.1),
    )
}

/// A truth table in which each fluent has the value of another truth table.
pub fn replaced(table: u16, images: [u16; 4]) -> u16 {
    let mut result = 0;
    for s in 0..16u32 {
        let mut from = 0u32;
        for f in 0..4usize {
            if images[f] >> s & 1 == 1 {
                from |= 1 << f;
            }
        }
        if table >> (from % 16) & 1 == 1 {
            result |= 1u16 << s;
        }
    }
    result
}

/// Whether the first two fluents are replaced at once, and by the first entry of each.
#[tactic(auto, using(dd_sets::proofs::FrameLemmas::kept_release))]
pub fn replaces(sets: &mut Sets, f: Known, g: Known, h: Known) -> Result<bool, SetErr>
    requires f_live { IsLive sets.old f.0.0 }
    requires g_live { IsLive sets.old g.0.0 }
    requires h_live { IsLive sets.old h.0.0 }
    ensures { KeepsSets sets.old sets.new }
{
    let map = [(FluentId(0), g.0), (FluentId(1), h.0), (FluentId(0), f.0)];
    let made = sets.subst(f.0, &map)?;
    let table = replaced(f.1, [g.1, h.1, FLUENTS[2], FLUENTS[3]]);
    Ok(had(sets, made, table))
}

#[tactic(auto, using(dd_sets::proofs::FrameLemmas::kept_release))]
fn fixes(sets: &mut Sets, f: Known, fluent: u32, value: bool) -> Result<bool, SetErr>
    requires f_live { IsLive sets.old f.0.0 }
    requires few { fluent < 3 }
    requires vars { 3 ≤ sets.old.vars }
    ensures { KeepsSets sets.old sets.new }
{
    let made = sets.cofactor(f.0, FluentId(fluent), value)?;
    let mut images = FLUENTS;
    images[fluent as usize] = if value { 0xffff } else { 0 };
    Ok(had(sets, made, replaced(f.1, images)))
}

/// The set at a place of a list.
pub fn pick(_sets: &Sets, known: &[Known], place: usize) -> Option<Known>
    requires { All (λ k. IsLive _sets.now k.0.0) known.now }
    ensures { IfSome result (λ k. IsLive _sets.now k.0.0) }
{
    known.get(place).copied()
}

/// Adds a set to a list.
#[tactic(auto, using(dd_sets::proofs::FrameLemmas::all_added))]
pub fn add(_sets: &Sets, known: &mut Vec<Known>, slot: SetId, table: u16) -> Result<(), AllocError>
    requires live { All (λ k. IsLive _sets.now k.0.0) known.old.items }
    requires new { IsLive _sets.now slot.0 }
    ensures { OnOk result (All (λ k. IsLive _sets.now k.0.0) known.new.items) }
{
    known.push((slot, table))?;
    Ok(())
}

/// The set of one state over the first three fluents. The slots on the way stay live.
#[tactic(auto, using(dd_sets::proofs::FrameLemmas::kept_chain))]
fn one_state(sets: &mut Sets, s: u32) -> Result<SetId, SetErr>
    requires { 3 ≤ sets.old.vars }
    ensures live { IfOk result (λ slot. IsLive sets.new slot.0) }
    ensures kept { KeepsSets sets.old sets.new }
{
    let mut all = sets.whole()?;
    for f in 0..3u32 {
        let value = sets.of_fluent(FluentId(f))?;
        all = if s >> f & 1 == 1 {
            sets.meet(all, value)?
        } else {
            sets.minus(all, value)?
        };
    }
    Ok(all)
}

#[tactic(auto, using(dd_sets::proofs::FrameLemmas::kept_chain))]
fn with_state(sets: &mut Sets, f: Known, s: u32) -> Result<SetId, SetErr>
    requires vars { 3 ≤ sets.old.vars }
    requires f_live { IsLive sets.old f.0.0 }
    ensures live { IfOk result (λ slot. IsLive sets.new slot.0) }
    ensures kept { KeepsSets sets.old sets.new }
{
    let one = one_state(sets, s)?;
    sets.join(f.0, one)
}

/// The sets over three fluents, each at the place of its truth table over these fluents.
#[tactic(auto, using(dd_sets::proofs::FrameLemmas::all_kept))]
pub fn all_sets(alloc: Global, sets: &mut Sets) -> Result<Vec<Known>, Fail>
    requires { 3 ≤ sets.old.vars }
    ensures live { IfOk result (λ known. All (λ k. IsLive sets.new k.0.0) known.items) }
    ensures vars { OnOk result (3 ≤ sets.new.vars) }
{
    let mut known = Vec::new(alloc);
    let none = sets.none()?;
    add(sets, &mut known, none, 0)?;
    for table in 1..256u16 {
        let rest = table & (table - 1);
        let f = pick(sets, &known, rest as usize).ok_or("a set is missing")?;
        let made = with_state(sets, f, table.trailing_zeros())?;
        add(sets, &mut known, made, table * 257)?;
    }
    Ok(known)
}

/// Whether the operations on a set and each of a list answer by their truth tables.
#[tactic(auto, using(dd_sets::proofs::FrameLemmas::kept_chain))]
fn agrees(sets: &mut Sets, f: Known, known: &[Known]) -> Result<bool, SetErr>
    requires f_live { IsLive sets.old f.0.0 }
    requires live { All (λ k. IsLive sets.old k.0.0) known.now }
    ensures { KeepsSets sets.old sets.new }
{
    for g in known {
        if !(meets(sets, f, *g)? && joins(sets, f, *g)? && subtracts(sets, f, *g)?) {
            return Ok(false);
        }
        if !(compares(sets, f, *g)? && replaces(sets, *g, f, *g)?) {
            return Ok(false);
        }
    }
    Ok(true)
}

/// Whether the operations on one set answer by its truth table.
#[tactic(auto, using(dd_sets::proofs::FrameLemmas::kept_chain))]
fn agrees_alone(sets: &mut Sets, f: Known) -> Result<bool, Fail>
    requires f_live { IsLive sets.old f.0.0 }
    requires vars { 3 ≤ sets.old.vars }
    ensures { KeepsSets sets.old sets.new }
{
    let is_so = complements(sets, f)? && copies(sets, f)?;
    let is_fixed = fixes(sets, f, 0, true)? && fixes(sets, f, 2, false)?;
    Ok(is_so && is_fixed && has_cubes(sets, f)?)
}

/// Whether the operations on each set of a list answer by their truth tables.
#[tactic(auto, using(dd_sets::proofs::FrameLemmas::kept_chain))]
fn all_agree(sets: &mut Sets, known: &[Known]) -> Result<bool, Fail>
    requires live { All (λ k. IsLive sets.old k.0.0) known.now }
    requires vars { 3 ≤ sets.old.vars }
{
    for f in known {
        if !(agrees_alone(sets, *f)? && agrees(sets, *f, known)?) {
            return Ok(false);
        }
    }
    Ok(true)
}

/// Whether every operation answers at every set over three fluents, each with every other.
pub fn every_set_agrees(alloc: Global, sets: &mut Sets) -> Result<bool, Fail>
    requires { 3 ≤ sets.old.vars }
{
    let known = all_sets(alloc, sets)?;
    Ok(known.len() == 256 && all_agree(sets, &known)?)
}

/// The same from no set on.
fn every_set_agrees_anew(alloc: Global) -> Result<bool, Fail> {
    let mut sets = Sets::new(alloc, 3, 300)?;
    every_set_agrees(alloc, &mut sets)
}

#[test]
fn operations_agree_with_truth_tables(rt: HostRuntime) -> Result<(), Fail> {
    assert!(rt; every_set_agrees_anew(rt.alloc())?);
    Ok(())
}
