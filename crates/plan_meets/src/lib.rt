//! Definitions alone: what a plan means, and when that meets a problem (`Meets`), with when a goal in
//! computation tree logic is true (`TemporalGoals`).
#![tactic(auto)]
