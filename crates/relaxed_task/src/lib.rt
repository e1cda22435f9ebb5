//! Estimates by the relaxed task, in which what becomes false is passed over and each outcome may be
//! chosen: the additive heuristic, the FF heuristic and its helpful actions (Bonet and Geffner, Planning
//! as heuristic search, 2001; Hoffmann and Nebel, The FF planning system, 2001), and a queue in the order
//! of estimates. Nothing is promised but that each call ends.
//!
//! `net` puts the relaxed task together, and `wave` makes the estimates.
#![tactic(auto)]

mod net;
mod queues;
mod wave;

pub use net::{Draft, literal};
pub use queues::Queue;
pub use wave::Wave;
