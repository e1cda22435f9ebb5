//! The program as one call: `run`.
//!
//! Each command stands in a crate of its own, over `command_base`, which says what they share. Here
//! `specs/` says what the call answers: `Causes` the cause of each answer, `Fetching` which files each
//! command fetches, `Told` what the words and the files alone decide, `Runs` a run with all that, and
//! `Laws` what follows of each run.
#![tactic(auto)]

mod commands;
mod laws;
mod runs;
mod top;

pub use laws::{
    answered_files_are_fetched, answers_are_cut, answers_are_whole, certificates_are_accepted,
    certificates_are_judged, certificates_are_rejected, drills_are_written, due_answers_come,
    due_statuses_come, full_drills_are_tight, full_refutations_are_tight, full_tables_are_tight,
    listings_are_written, missing_plans_are_told, plans_are_replayed, plans_are_written,
    plans_meet_at_yes, printed_certificates_are_accepted, problems_are_drilled,
    problems_are_listed, reasons_come_at_no, shelves_stay_quiet, sinks_stay_quiet,
    statuses_are_ten, traces_are_written, unread_files_are_named,
};
pub use top::run;
