//! Which actions of a domain can never be executed, and why; and whether the goal of a problem can
//! never hold.
//!
//! An action can be executed only where its precondition can hold by the literals that can come true
//! at all (`relaxed_reach`). So what is found is never executed; an action that is not found may be
//! executed, or not.
#![tactic(auto)]

mod blocked;
mod causes;
mod facts;
mod finding;
mod goals;
mod makers;
mod parts;
mod queue;
mod relaxed;
mod texts;

pub use blocked::{parts_of, push_blocked};
pub use causes::Cause;
pub use finding::{NeverRun, Setup, never_run};
pub use goals::{GoalNever, goal_never};
pub use makers::{Maker, lacks_of, makers_of};
pub use queue::never_literals;
pub use relaxed::Relaxed;
pub use texts::push_reasons;
