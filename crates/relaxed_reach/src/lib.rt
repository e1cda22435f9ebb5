//! Which literals can come true at all, if what an action deletes is never lost (the relaxation of
//! Bonet and Geffner, "Planning as heuristic search", Artificial Intelligence 129, 2001, over
//! literals, so that negative conditions count too). A literal outside of this set is true in no
//! reachable state.
#![tactic(auto)]

mod conditions;
mod goals;
mod laws;
mod literals;
mod reaching;

pub use conditions::can_be;
pub use goals::goal_of;
pub use laws::{goals_that_cannot_hold_are_never_reached, relaxed_sets_hold_what_is_reached};
pub use literals::Literals;
pub use reaching::{reached_literals, start_literals};
