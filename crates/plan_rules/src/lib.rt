//! Plans as rules, and their text.
//!
//! A table plan is a list of rules, each a cube and an action; it denotes the state-action table of
//! all pairs of a state that some rule matches and that rule's action, where the action can be
//! executed (Cimatti, Pistore, Roveri and Traverso 2003). An automaton is a list of rules with
//! contexts; it denotes a context plan, in which the first rule that matches counts (Pistore and
//! Traverso 2001).
//!
//! `specs/Denoted.antt` says what a plan denotes, `specs/Texts.antt` which bytes are printed of it,
//! and `specs/Readings.antt` which bytes spell it and what is wrong in the others: a grammar over
//! the forms of a text, so that white space, comments and the case of letters are free.
#![tactic(auto)]

mod auto_reader;
mod following;
mod items;
mod laws;
mod lines;
mod literals;
mod names;
mod reader;
mod rules;
mod table_reader;
mod text;

pub use auto_reader::MAX_CONTEXTS;
pub use following::{Advice, FIRST_CONTEXT, Onward, context_in, has_all, onward_of};
pub use items::{first_item, span_of};
pub use laws::{one_plan, plan_or_fault, printed_spells};
pub use lines::rule_lines;
pub use literals::read_cube;
pub use names::NameTable;
pub use reader::{after_first, fluent_table, read_plan};
pub use rules::{AutoPlan, AutoRule, Case, Class, Next, Plan, PlanRead, Rule, TablePlan};
pub use table_reader::class_named;
pub use text::{push_cube, push_name, push_number, word_of, write_plan};
