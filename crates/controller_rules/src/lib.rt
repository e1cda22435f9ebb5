//! What the rules of a controller have beside their verdict, and its text.
//!
//! A controller is a plan that is followed by hand or by another program: of the rules that count the
//! first decides. `rules_serve` says whether all rules that count in a configuration make the same
//! move, in each that the plan may reach, and whether each rule serves; `names_last_context` whether
//! there are no idle contexts; `is_plan_of` whether rules that were made by any search speak of a task
//! at all; `are_guarded` whether each rule asks for the precondition of its action. `write_controller` writes the text, with a comment before the rules that are first wanted after
//! as many steps.
//!
//! `specs/AsRun` says what a plan is as it is run, `specs/Unlisted` what is asked of rules whose states
//! are too many to be listed (`good_rules_control` is the law that carries a verdict on them to it), and
//! `specs/Texts` which bytes are printed.
#![tactic(auto)]

mod contexts;
mod fits;
mod guards;
mod laws;
mod run_rules;
mod served;
mod serving;
mod texts;

pub use contexts::names_last_context;
pub use fits::is_plan_of;
pub use guards::are_guarded;
pub use laws::good_rules_control;
pub use served::rules_serve;
pub use serving::serving_part;
pub use texts::write_controller;
