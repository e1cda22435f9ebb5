//! Definitions and laws alone: the table of first matching rules.
//!
//! A table plan denotes the pairs of each rule that matches a state, but whoever follows its rules takes
//! the first that matches. `specs/FirstMatch` says what the rules denote as they are run, when they are a
//! solution then, when it makes no difference, and when no rule is hidden by those before it. It is the
//! one definition of these, for judges that list states and for those that don't.
#![tactic(auto)]

mod laws;

pub use laws::agreeing_rules_solve;
