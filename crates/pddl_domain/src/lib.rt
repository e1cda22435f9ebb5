//! Planning domains, read out of texts.
//!
//! A text is read in passes. Each is a definition of its own, a list of everything that is wrong in
//! the text by its rules, and a function of its own that takes what the earlier passes read:
//! `specs/Sections.antt` (the list that defines the domain, and its sections), `Types`, `Ancestors`
//! (types, and that none is its own ancestor), `Constants` (constants and predicates), `Invariant`,
//! `Actions` (the four parts of each action). `specs/Domains.antt` puts them in their order, and says what a
//! text spells and which fault it has.
#![tactic(auto)]

mod actions;
mod constants;
mod domains;
mod invariant;
mod laws;
mod loops;
mod predicates;
mod schemas;
mod sections;
mod types;

pub use domains::read_domain;
pub use laws::domain_or_fault;
