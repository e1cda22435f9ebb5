//! What in the files of a domain and a problem is likely a mistake, each with its place.
//!
//! `mistakes` has the kinds. Each kind is a definition in `specs/` over the forms of the two texts, and
//! what is found is exactly the list that it is: `WrongTypes`, `NeverUsed`, `NeverTrue`, `Copies`,
//! `Idle`, `Equal`.
#![tactic(auto)]

mod alike;
mod copies;
mod equal;
mod finding;
mod idle;
mod mistakes;
mod never_true;
mod places;
mod rows;
mod term_types;
mod uses;
mod vocabulary;
mod wrong_types;

pub use finding::{Files, Mistakes, find_mistakes, forms_of};
pub use mistakes::{Mistake, MistakeKind};
pub use places::{action_named, part_span, span_or};
pub use rows::{after_first, first_list, first_parts, list_after, section_named, sections_of};
pub use uses::mentions;
