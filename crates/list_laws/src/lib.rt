//! Lemmas on lists, truth values, numbers and options that the proofs of several crates cite, and that
//! the standard library doesn't have. They speak of no task and no plan. There is no code here: each
//! file of `proofs/` has a topic (`Elements`, `Ranges`, `Distinct`, `Booleans`, `Numbers`, `Options`).
#![tactic(auto)]
