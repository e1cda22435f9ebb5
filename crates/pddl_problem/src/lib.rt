//! Planning problems in the planning domain definition language, with `oneof` and `unknown` in the
//! initial situation, read exactly relative to a domain.
//!
//! A text is read in passes: the list that defines a problem, its sections, the domain's name, the
//! objects, the initial situation, the goal, the goal in computation tree logic, and whether there
//! is a goal of either kind. `specs/Problems.antt` has the passes, each as the list of everything
//! that is wrong by its rules, and what they read; `specs/Sections.antt` and `specs/Init.antt` have
//! the rules of sections and of the initial situation.
#![tactic(auto)]

mod definitions;
mod faults;
mod init;
mod laws;
mod objects;
mod problems;
mod read;
mod sections;

pub use laws::one_answer;
pub use read::read_problem;
