//! The weak and the strong preimage.
ghost use Rattle.std.specs.Prelude.{◌≡◌, ℕ, ◌<◌, ◌==◌, length, IsErrOf};
ghost use Rattle.dd_sets.specs.Frames.{OwnsAnswer};
ghost use Rattle.dd_sets.specs.LiveSets.{IsLive, IsSets, set_of};
ghost use Rattle.dd_sets.specs.Rooms.{NoRoom};
ghost use Rattle.encode_task.specs.Made.{MadeOf};
ghost use Rattle.encode_task.specs.Slots.{outcome_slots};
ghost use Rattle.task_core.specs.declared.tasks.Task.{Task};
ghost use Rattle.preimage.specs.Preimages.{OfSomeTask, strong_preimage, weak_preimage};
ghost use Rattle.preimage.specs.Sides.{SideFits, all_outcomes_on};
ghost use Rattle.preimage.specs.WorkingSets.{PreimageFits, first_every, first_some};

use crate::slots::{Side, copied, is_none, part_of, rest_of};
use dd_sets::{SetErr, SetId};
use encode_task::Enc;
use task_core::ActionId;

/// The states in which an action can be executed and some outcome leads to a state in `x`, in a new
/// slot.
///
/// With one outcome this is the strong preimage: what the outcome leads into `x`, met with where the
/// action can be executed. Outcomes are passed over once none can change the answer.
///
/// At most 3 slots more than at entry are live while it works, and where the working sets that belong
/// to `x` are small, two of them at most hold another set. Time grows with the fluents that the
/// outcomes change, and not with all of them.
pub fn weak_pre(enc: &mut Enc, a: ActionId, x: SetId) -> Result<SetId, SetErr>
    requires made { OfSomeTask enc.old }
    requires action { a.0 < length enc.old.actions }
    requires live { IsLive enc.old.sets x.0 }
    ensures answer { (task : Task) → MadeOf task enc.old → OwnsAnswer enc.old.sets enc.new.sets
        (weak_preimage task a.0 (set_of enc.old.sets x.0)) result }
    ensures full { IsErrOf result SetErr.Full → (task : Task) → MadeOf task enc.old → (width : ℕ)
        → PreimageFits width task a.0 first_some (set_of enc.old.sets x.0)
        → NoRoom width 8 4 enc.old.sets enc.new.sets }
    ensures sound { IsSets enc.new.sets }
    ensures same_slots { enc.new ≡ record enc.old { sets = enc.new.sets } }
    ensures made { (task : Task) → MadeOf task enc.old → MadeOf task enc.new }
{
    if has_one_outcome(enc, a) {
        all_on_side(enc, a, x, Side::Inside)
    } else {
        not_all_outside(enc, a, x)
    }
}

/// Whether an action has one outcome, so that some outcome is every outcome.
fn has_one_outcome(enc: &Enc, a: ActionId) -> bool
    requires { a.0 < length enc.now.actions }
    ensures { result ≡ (length (outcome_slots enc.now a.0) == 1) }
{
    enc.outcomes(a) == 1
}

/// The weak preimage, by whatever number of outcomes: the states in which the action can be executed
/// and not every outcome that leads to a state leads outside `x`, in a new slot.
fn not_all_outside(enc: &mut Enc, a: ActionId, x: SetId) -> Result<SetId, SetErr>
    requires made { OfSomeTask enc.old }
    requires action { a.0 < length enc.old.actions }
    requires live { IsLive enc.old.sets x.0 }
    ensures answer { (task : Task) → MadeOf task enc.old → OwnsAnswer enc.old.sets enc.new.sets
        (weak_preimage task a.0 (set_of enc.old.sets x.0)) result }
    ensures full { IsErrOf result SetErr.Full → (task : Task) → MadeOf task enc.old → (width : ℕ)
        → PreimageFits width task a.0 first_some (set_of enc.old.sets x.0)
        → NoRoom width 8 4 enc.old.sets enc.new.sets }
    ensures sound { IsSets enc.new.sets }
    ensures same_slots { enc.new ≡ record enc.old { sets = enc.new.sets } }
    ensures made { (task : Task) → MadeOf task enc.old → MadeOf task enc.new }
{
    let left = all_on_side(enc, a, x, Side::Outside)?;
    let exec = enc.exec(a);
    rest_of(enc, exec, left)
}

/// The states in which an action can be executed and every outcome that leads to a state leads into
/// `x`, in a new slot.
///
/// Outcomes are passed over once no state is left.
///
/// At most 3 slots more than at entry are live while it works, and where the working sets that belong
/// to `x` are small, two of them at most hold another set. Time grows with the fluents that the
/// outcomes change, and not with all of them.
pub fn strong_pre(enc: &mut Enc, a: ActionId, x: SetId) -> Result<SetId, SetErr>
    requires made { OfSomeTask enc.old }
    requires action { a.0 < length enc.old.actions }
    requires live { IsLive enc.old.sets x.0 }
    ensures answer { (task : Task) → MadeOf task enc.old → OwnsAnswer enc.old.sets enc.new.sets
        (strong_preimage task a.0 (set_of enc.old.sets x.0)) result }
    ensures full { IsErrOf result SetErr.Full → (task : Task) → MadeOf task enc.old → (width : ℕ)
        → PreimageFits width task a.0 first_every (set_of enc.old.sets x.0)
        → NoRoom width 8 4 enc.old.sets enc.new.sets }
    ensures sound { IsSets enc.new.sets }
    ensures same_slots { enc.new ≡ record enc.old { sets = enc.new.sets } }
    ensures made { (task : Task) → MadeOf task enc.old → MadeOf task enc.new }
{
    all_on_side(enc, a, x, Side::Inside)
}

/// The states in which an action can be executed and all outcomes that lead to states lead to one side
/// of `x`, in a new slot.
fn all_on_side(enc: &mut Enc, a: ActionId, x: SetId, side: Side) -> Result<SetId, SetErr>
    requires made { OfSomeTask enc.old }
    requires action { a.0 < length enc.old.actions }
    requires live { IsLive enc.old.sets x.0 }
    ensures answer { (task : Task) → MadeOf task enc.old → OwnsAnswer enc.old.sets enc.new.sets
        (all_outcomes_on side task a.0 (set_of enc.old.sets x.0)) result }
    ensures full { IsErrOf result SetErr.Full → (task : Task) → MadeOf task enc.old → (width : ℕ)
        → SideFits width side task a.0 (set_of enc.old.sets x.0)
        → NoRoom width 8 4 enc.old.sets enc.new.sets }
    ensures sound { IsSets enc.new.sets }
    ensures same_slots { enc.new ≡ record enc.old { sets = enc.new.sets } }
    ensures made { (task : Task) → MadeOf task enc.old → MadeOf task enc.new }
{
    let exec = enc.exec(a);
    let mut rest = copied(enc, exec)?;
    for o in 0..enc.outcomes(a) {
        if is_none(enc, rest) {
            return Ok(rest);
        }
        let led = enc.led_into(a, o, x);
        let lands = enc.lands(a, o);
        rest = part_of(enc, side, lands, rest, led)?;
    }
    Ok(rest)
}
