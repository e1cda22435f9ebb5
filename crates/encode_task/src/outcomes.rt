//! The next values of fluents under an outcome, as sets.
ghost use Rattle.std.specs.Prelude.{◌≡◌, ℕ, ◌+◌, ◌<◌, ◌≤◌, ◌==◌, ◌||◌, ◌&&◌, [], ◌∷◌, true};
ghost use Rattle.std.specs.Prelude.{IsErrOf, Contains};
ghost use Rattle.std.specs.List.{list_any};
ghost use Rattle.dd_nodes.specs.Subfunctions.{Function};
ghost use Rattle.dd_sets.specs.Frames.{Owns, OwnsAnswer};
ghost use Rattle.dd_sets.specs.LiveSets.{LiveSets, IsLive, set_of};
ghost use Rattle.dd_sets.specs.Rooms.{NoRoom, Rough};
ghost use Rattle.task_core.specs.Actions.{after_value, change_is_shallow, change_makes};
ghost use Rattle.task_core.specs.Actions.{change_within, outcome_is_shallow, outcome_within};
ghost use Rattle.task_core.specs.Initial.{names_it};
ghost use Rattle.task_core.specs.Vectors.{same_value};
ghost use Rattle.task_core.specs.declared.literals.Lit.{Lit as Literal};
ghost use Rattle.encode_task.specs.WorkingSets.{AreSmall, IsMadeForOutcome, IsPartOf};

use crate::conditions::set_where;
use dd_sets::{SetErr, SetId, Sets};
use task_core::{Change, FluentId, Lit, Outcome};

/// The lists of truth values at which a fluent is true after an outcome, in a new slot: those at
/// which a change adds it, and those at which it is true and no change deletes it.
pub fn next_value(sets: &mut Sets, outcome: &Outcome, f: FluentId) -> Result<SetId, SetErr>
    requires fluent { f.0 < sets.old.vars }
    requires fluents { outcome_within sets.old.vars outcome.now ≡ true }
    requires shallow { outcome_is_shallow outcome.now ≡ true }
    ensures answer { OwnsAnswer sets.old sets.new (λ values. after_value outcome.now values f.0)
        result }
    ensures full { IsErrOf result SetErr.Full → (w : ℕ) → sets.old.vars + 2 ≤ w
        → AreSmall sets.old.vars w (IsMadeForOutcome sets.old.vars outcome.now)
        → NoRoom w 208 1 sets.old sets.new }
{
    let value = sets.of_fluent(f)?;
    let deleted = made_so(sets, outcome, f, false);
    let kept = sets.without(value, deleted)?;
    let added = made_so(sets, outcome, f, true);
    sets.in_some(kept, added)
}

/// The lists of truth values at which some change of an outcome makes a fluent true (positive) or
/// false (not positive), in a new slot.
fn made_so(sets: &mut Sets, outcome: &Outcome, f: FluentId, positive: bool) -> Result<SetId, SetErr>
    requires fluent { f.0 < sets.old.vars }
    requires fluents { outcome_within sets.old.vars outcome.now ≡ true }
    requires shallow { outcome_is_shallow outcome.now ≡ true }
    ensures answer { OwnsAnswer sets.old sets.new
        (λ values. list_any (change_makes positive values f.0) outcome.now.changes.items) result }
    ensures full { IsErrOf result SetErr.Full → (w : ℕ)
        → AreSmall sets.old.vars w (IsMadeForOutcome sets.old.vars outcome.now)
        → NoRoom w 206 0 sets.old sets.new }
{
    let mut some = sets.none()?;
    for change in &outcome.changes {
        some = with_change(sets, some, change, f, positive)?;
    }
    Ok(some)
}

/// The set with the lists of truth values at which a change makes a fluent so, in the place of its
/// slot.
fn with_change(
    sets: &mut Sets,
    some: SetId,
    change: &Change,
    f: FluentId,
    positive: bool,
) -> Result<SetId, SetErr>
    requires live { IsLive sets.old some.0 }
    requires fluents { change_within sets.old.vars change.now ≡ true }
    requires shallow { change_is_shallow change.now ≡ true }
    ensures answer { (before : LiveSets) (set : Function)
        → Owns before sets.old ((some.0, set) ∷ []) → OwnsAnswer before sets.new
        (λ values. set values || change_makes positive values f.0 change.now) result }
    ensures full { IsErrOf result SetErr.Full → (w : ℕ)
        → ((lit : Literal) → Contains change.now.lits.items lit
        → AreSmall sets.old.vars w (IsPartOf change.now.cond))
        → Rough sets.old.vars w
        (λ values. set_of sets.old some.0 values || change_makes positive values f.0 change.now)
        → NoRoom w 205 0 sets.old sets.new }
{
    if is_about(change, f, positive) {
        let answer = set_where(sets, &change.cond);
        sets.in_some(some, answer)
    } else {
        Ok(some)
    }
}

/// Whether a change has a fluent's literal of the sign.
fn is_about(change: &Change, f: FluentId, positive: bool) -> bool
    ensures { result ≡ names_it positive f.0 change.now.lits.items }
{
    change.lits.iter().any(|lit| is_of(lit, f, positive))
}

/// Whether a literal is a fluent's, of the sign.
fn is_of(lit: &Lit, f: FluentId, positive: bool) -> bool
    ensures { result ≡ (lit.now.fluent.0 == f.0 && same_value lit.now.positive positive) }
{
    lit.fluent == f && lit.positive == positive
}
