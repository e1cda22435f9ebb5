//! What a user writes who hands objects of their own to `mbp_top::run`.
//!
//! - Worlds: one that draws from a queue, and one that keeps its words in reverse.
//! - Monitors: one that counts the steps with one action, one whose steps weigh as much as a step
//!   may, and one that lists the numbers of the steps that it sees.
//!
//! The world in reverse and the monitor that lists tell what is done to them in a place that each
//! shares with the user.
//!
//! Each meets its trait's clauses. The tests hand them to `run`.
#![tactic(auto)]

mod action_monitor;
mod listing_monitor;
mod places;
mod queue_world;
mod reverse_world;
#[cfg(test)]
mod tests;
mod weight_monitor;

pub use action_monitor::ActionMonitor;
pub use listing_monitor::ListingMonitor;
pub use places::Place;
pub use queue_world::QueueWorld;
pub use reverse_world::ReverseWorld;
pub use weight_monitor::WeightMonitor;
