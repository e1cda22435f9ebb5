//! The picture of a plan by its rules, for plans with more states than can be read: the configurations
//! that one rule serves are one node, and an edge says what a step changes.
//!
//! `specs/Rules.antt` says which rule counts where, and `specs/Texts.antt` what is printed, byte for
//! byte.
#![tactic(auto)]

mod lines;
mod rules;
mod text;

pub use text::rules_text;
