//! Tests of tasks, plans, certificates, runs, graphs of what a plan reaches, and the verdict on a plan.
//!
//! They stand apart from what they test, so that it is proved once and not again with its tests.
#![tactic(auto)]

#[cfg(test)]
mod certificate_tests;
#[cfg(test)]
mod class_tests;
#[cfg(test)]
mod goal_tests;
#[cfg(test)]
mod graph_tests;
#[cfg(test)]
mod initial_tests;
#[cfg(test)]
mod monitor_tests;
#[cfg(test)]
mod plan_text_tests;
#[cfg(test)]
mod run_tests;
#[cfg(test)]
mod stream_tests;
#[cfg(test)]
mod task_tests;
