//! The set of a condition.
ghost use Rattle.std.specs.Prelude.{◌≡◌, ℕ, ◌+◌, true, IsErrOf};
ghost use Rattle.std.specs.List.{list_all, list_any};
ghost use Rattle.dd_sets.specs.Frames.{OwnsAnswer};
ghost use Rattle.dd_sets.specs.Rooms.{NoRoom};
ghost use Rattle.task_core.specs.Conditions.{depth, holds, ids_below};
ghost use Rattle.encode_task.specs.WorkingSets.{AreSmall, IsPartOf};

use dd_sets::{SetErr, SetId, Sets};
use task_core::Cond;

/// The lists of truth values at which a condition holds, in a new slot.
///
/// The parts of an `All` or `Any` are first put together by halves: then the time grows with the
/// logarithm of their number times the nodes of the set that they make, and not with the product.
/// Where that finds no room, they are put together one by one, which takes the fewest slots.
pub fn set_where(sets: &mut Sets, cond: &Cond) -> Result<SetId, SetErr>
    requires { ids_below sets.old.vars cond.now ≡ true }
    ensures answer { OwnsAnswer sets.old sets.new (holds cond.now) result }
    ensures full { IsErrOf result SetErr.Full → (w : ℕ)
        → AreSmall sets.old.vars w (IsPartOf cond.now)
        → NoRoom w (depth cond.now + 4) 0 sets.old sets.new }
{
    match by_halves(sets, cond) {
        Ok(set) => Ok(set),
        Err(SetErr::Full) => one_by_one(sets, cond),
        Err(SetErr::Memory) => Err(SetErr::Memory),
    }
}

/// The same, with the parts of an `All` or `Any` put together by halves.
#[cycle(halving)]
fn by_halves(sets: &mut Sets, cond: &Cond) -> Result<SetId, SetErr>
    requires { ids_below sets.old.vars cond.now ≡ true }
    ensures { OwnsAnswer sets.old sets.new (holds cond.now) result }
{
    match cond {
        Cond::Yes => sets.whole(),
        Cond::No => sets.none(),
        Cond::Is(f) => sets.of_fluent(*f),
        Cond::Not(part) => {
            let inside = by_halves(sets, part)?;
            sets.outside(inside)
        }
        Cond::All(parts) => all_of(sets, parts),
        Cond::Any(parts) => any_of(sets, parts),
    }
}

/// The lists of truth values at which all of some conditions hold, in a new slot.
#[cycle(halving)]
fn all_of(sets: &mut Sets, parts: &[Cond]) -> Result<SetId, SetErr>
    requires { list_all (ids_below sets.old.vars) parts.now ≡ true }
    ensures { OwnsAnswer sets.old sets.new
        (λ values. list_all (λ part. holds part values) parts.now) result }
{
    if parts.is_empty() {
        return sets.whole();
    }
    if parts.len() == 1 {
        return by_halves(sets, &parts[0]);
    }
    let (front, back) = parts.split_at(parts.len() / 2);
    let first = all_of(sets, front)?;
    let rest = all_of(sets, back);
    sets.in_both(first, rest)
}

/// The lists of truth values at which some of some conditions hold, in a new slot.
#[cycle(halving)]
fn any_of(sets: &mut Sets, parts: &[Cond]) -> Result<SetId, SetErr>
    requires { list_all (ids_below sets.old.vars) parts.now ≡ true }
    ensures { OwnsAnswer sets.old sets.new
        (λ values. list_any (λ part. holds part values) parts.now) result }
{
    if parts.is_empty() {
        return sets.none();
    }
    if parts.len() == 1 {
        return by_halves(sets, &parts[0]);
    }
    let (front, back) = parts.split_at(parts.len() / 2);
    let first = any_of(sets, front)?;
    let rest = any_of(sets, back);
    sets.in_some(first, rest)
}

/// The same as `set_where`, with the parts put together one after another in one accumulator.
///
/// Each part is released before the next is made, so the slots that are live at once grow with the
/// depth of the condition and not with the number of its parts.
fn one_by_one(sets: &mut Sets, cond: &Cond) -> Result<SetId, SetErr>
    requires { ids_below sets.old.vars cond.now ≡ true }
    ensures answer { OwnsAnswer sets.old sets.new (holds cond.now) result }
    ensures full { IsErrOf result SetErr.Full → (w : ℕ)
        → AreSmall sets.old.vars w (IsPartOf cond.now)
        → NoRoom w (depth cond.now + 4) 0 sets.old sets.new }
{
    match cond {
        Cond::Yes => sets.whole(),
        Cond::No => sets.none(),
        Cond::Is(f) => sets.of_fluent(*f),
        Cond::Not(part) => {
            let inside = one_by_one(sets, part)?;
            sets.outside(inside)
        }
        Cond::All(parts) => {
            let mut all = sets.whole()?;
            for part in parts {
                let answer = one_by_one(sets, part);
                all = sets.in_both(all, answer)?;
            }
            Ok(all)
        }
        Cond::Any(parts) => {
            let mut any = sets.none()?;
            for part in parts {
                let answer = one_by_one(sets, part);
                any = sets.in_some(any, answer)?;
            }
            Ok(any)
        }
    }
}
