//! Planning domains in whose texts effects may be `probabilistic`.
//!
//! An effect `(probabilistic WEIGHT EFFECT ..)` says which outcomes an action can have, and how
//! often. Only which can happen is read. A text is read through its plain text (`plain`), which has
//! the same length: each recognised list is in it the `oneof` of its effects whose weight is not 0,
//! with the empty effect before them where the weights' sum is less than 1. The reader of plain
//! domains (crate `pddl_domain`) reads that. Every form of the plain text has its place in the
//! original, so each fault does.
//!
//! `specs/Domains.antt` says what a text spells and which fault it has, by the forms that are written
//! in it and those that they mean, and not by the plain text. `specs/Roles.antt` says which lists are
//! recognised, `specs/Weights.antt` what a weight is, `specs/Meant.antt` which forms a text means,
//! `specs/Edits.antt` which text is made of it, and `specs/Faults.antt` what can be wrong.
#![tactic(auto)]

mod checks;
mod edits;
mod laws;
mod plain_laws;
mod plain_text;
mod reading;
mod roles;
mod weights;

pub use laws::domain_or_fault;
pub use plain_laws::{plain_or_fault, weights_are_exact};
pub use plain_text::plain;
pub use reading::read_domain;
