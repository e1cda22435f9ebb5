//! Steps on a board as plain data, and what they leave at its places.
//!
//! A search or a verdict on sets writes down what it does as a list of steps, and `make_all` makes
//! them in turn. What stands at each place then is computed from the list alone (`after_steps`), so
//! that what a list of steps makes is proved of lists and functions, with no board. `put` puts at a
//! place what another call answered.
#![tactic(auto)]

mod making;
mod steps;

pub use making::{make_all, put};
pub use steps::Step;
