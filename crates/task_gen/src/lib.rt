//! Planning domains and problems made from a number: large valid inputs to try a planner on.
//!
//! `corridor` is a row of rooms in which a robot may fail to move: there is a weak plan and a strong cyclic
//! one, and no strong plan. `tyres` is a road on which each drive may cost a tyre, after the tyreworld of the
//! planning competitions: there is a plan of each class. So the answer is known at any size.
#![tactic(auto)]

mod corridors;
mod roads;
mod texts;

pub use corridors::corridor;
pub use roads::tyres;
pub use texts::Generated;
