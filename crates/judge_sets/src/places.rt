//! The places of the board of a verdict.

ghost use Rattle.std.specs.Prelude.{◌≡◌, ◌+◌};
ghost use Rattle.judge_sets.specs.Places.{place_count};

use task_core::ActionId;

/// Where some rule that was read matches,
pub(crate) const MATCHED: usize = 0;
/// where rules that match have different actions,
pub(crate) const DIFFER: usize = 1;
/// a cube, and what else is looked at,
pub(crate) const CUBE: usize = 2;
/// what is made of it,
pub(crate) const PART: usize = 3;
/// the states from which following the rules is good,
pub(crate) const GOOD: usize = 4;
/// where no rule counts that cannot be followed,
pub(crate) const FOLLOWED: usize = 5;
/// and the states from which following the rules never leads out.
pub(crate) const STAYS: usize = 6;

/// The place of the states in which an action is taken.
pub(crate) fn taken_at(a: ActionId) -> usize
    ensures { result ≡ 7 + a.0 }
{
    7 + a.0 as usize
}

pub(crate) fn places(actions: u32) -> usize
    ensures { result ≡ place_count actions }
{
    7 + actions as usize
}
