//! What comes of following a plan that is found over sets of states, in one of two tries.

use crate::followed::Followed;
use crate::searches::Stop;
use dd_sets::SetErr;

/// What came of a try.
#[derive(Drop)]
pub(crate) enum SetOutcome {
    /// This is what a plan reaches, and what it does there.
    Followed(Followed),
    NoPlan,
    /// There are too many initial states, or the plan reaches too many configurations.
    TooMany,
}

/// What came of a try. Where it finds no room or no memory, another one may find it.
pub(crate) fn outcome_of_try(found: Result<Option<Followed>, Stop>) -> Result<SetOutcome, SetErr> {
    match found {
        Ok(Some(followed)) => Ok(SetOutcome::Followed(followed)),
        Ok(None) => Ok(SetOutcome::NoPlan),
        Err(Stop::TooMany) => Ok(SetOutcome::TooMany),
        Err(Stop::Full) => Err(SetErr::Full),
        Err(Stop::Memory) => Err(SetErr::Memory),
    }
}

/// What a plan reaches, if there is one, where so much came of the tries, if there is an initial state.
pub(crate) fn followed_in_tries(
    found: Result<Option<SetOutcome>, SetErr>,
) -> Result<Option<Followed>, Stop> {
    match found? {
        Some(SetOutcome::Followed(followed)) => Ok(Some(followed)),
        Some(SetOutcome::NoPlan) | None => Ok(None),
        Some(SetOutcome::TooMany) => Err(Stop::TooMany),
    }
}
