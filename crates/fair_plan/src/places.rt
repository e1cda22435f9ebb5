//! The places of a search's board.

ghost use Rattle.std.specs.Prelude.{◌≡◌, ◌+◌, ◌<◌, ◌≤◌};
ghost use Rattle.fair_plan.specs.Places.{met_place, place_count, takers_place, win_place};
ghost use Rattle.ctl_syntax.specs.GoalSizes.{most_stages};

use task_core::ActionId;

/// What is looked at.
pub(crate) const PART: usize = 0;
/// The states that were near before a pass.
pub(crate) const BEFORE: usize = 1;
/// The states from which a target can be come to.
pub(crate) const NEAR: usize = 2;
/// The states from which one can stay among those of a round.
pub(crate) const STAY: usize = 3;
/// The states that a round begins with.
pub(crate) const LAST: usize = 4;
/// Those that are left.
pub(crate) const LEFT: usize = 5;
/// The guard.
pub(crate) const GUARD: usize = 6;
/// The states whose action, or whose next context, is looked for.
pub(crate) const REST: usize = 7;

/// The place of the states in which an action may be taken.
pub(crate) fn pairs_at(a: ActionId) -> usize
    ensures { result ≡ 8 + a.0 }
{
    8 + a.0 as usize
}

/// The place of the states of the context of a stage, counted from 0.
pub(crate) fn win_at(actions: u32, stage: u32) -> usize
    ensures { result ≡ win_place actions stage }
{
    8 + actions as usize + stage as usize
}

/// The place of the states where a stage is met, or a visit made. After the last stage, that of no
/// states.
pub(crate) fn met_at(actions: u32, count: u32, stage: u32) -> usize
    ensures { result ≡ met_place actions count stage }
{
    9 + actions as usize + count as usize + stage as usize
}

/// The first of the places of the states that take actions towards a stage or visit.
pub(crate) fn takers_at(actions: u32, count: u32, stage: u32) -> usize
    requires count { count ≤ most_stages }
    requires stage { stage ≤ most_stages + 1 }
    ensures { result ≡ takers_place actions count stage }
{
    10 + actions as usize + 2 * count as usize + stage as usize * actions as usize
}

/// How many actions a task has, and how many stages or visits a goal.
#[derive(Clone, Copy)]
pub(crate) struct Sizes {
    pub(crate) actions: u32,
    pub(crate) count: u32,
}

/// The places of a stage of an until-chain.
#[derive(Clone, Copy)]
pub(crate) struct StagePlaces {
    /// The states of the stage's context,
    pub(crate) win: usize,
    /// those of the next context,
    pub(crate) next: usize,
    /// where the stage is met,
    pub(crate) met: usize,
    /// and the first of those that take actions towards it.
    pub(crate) takers: usize,
}

/// The places of a stage, counted from 0.
pub(crate) fn stage_places(actions: u32, count: u32, stage: u32) -> StagePlaces
    requires count { count ≤ most_stages }
    requires stage { stage < count }
    ensures win { result.win ≡ win_place actions stage }
    ensures next { result.next ≡ win_place actions (stage + 1) }
    ensures met { result.met ≡ met_place actions count stage }
    ensures takers { result.takers ≡ takers_place actions count stage }
{
    StagePlaces {
        win: win_at(actions, stage),
        next: win_at(actions, stage + 1),
        met: met_at(actions, count, stage),
        takers: takers_at(actions, count, stage),
    }
}

pub(crate) fn places(actions: u32, count: u32) -> usize
    requires { count ≤ most_stages }
    ensures { result ≡ place_count actions count }
{
    takers_at(actions, count, count + 1)
}
