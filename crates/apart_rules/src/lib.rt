//! Proofs alone: rules of which no two count in one configuration, as those of the plans that `plan`
//! prints. Such a plan may be run as it is read, and without its rules that serve nowhere it does the
//! same.
#![tactic(auto)]
