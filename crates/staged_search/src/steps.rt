//! Conditions in states, and where outcomes lead. The judge of a plan steps by `task_core`; here nothing
//! rests on it, so no number is known to be in range.

use task_core::{Cond, Lit, Outcome, State};

/// Whether a condition holds in a state.
pub(crate) fn holds(cond: &Cond, state: &State) -> bool {
    match cond {
        Cond::Yes => true,
        Cond::No => false,
        Cond::Is(fluent) => fluent.0 < 256 && state.get(*fluent),
        Cond::Not(part) => !holds(part, state),
        Cond::All(parts) => {
            for part in parts {
                if !holds(part, state) {
                    return false;
                }
            }
            true
        }
        Cond::Any(parts) => {
            for part in parts {
                if holds(part, state) {
                    return true;
                }
            }
            false
        }
    }
}

/// The vector to which an outcome leads from a state: what it deletes goes first, then what it adds comes.
pub(crate) fn vector_after(outcome: &Outcome, state: &State) -> State {
    let deleted = changed(outcome, state, *state, false);
    changed(outcome, state, deleted, true)
}

/// The vector with the outcome's literals of one sign, whose conditions are read in the old state.
fn changed(outcome: &Outcome, old: &State, vector: State, positive: bool) -> State {
    let mut next = vector;
    for change in &outcome.changes {
        if holds(&change.cond, old) {
            next = with_lits(next, &change.lits, positive);
        }
    }
    next
}

/// The vector with the literals of one sign.
fn with_lits(vector: State, lits: &[Lit], positive: bool) -> State {
    let mut next = vector;
    for lit in lits {
        if lit.positive == positive && lit.fluent.0 < 256 {
            next = next.with(lit.fluent, positive);
        }
    }
    next
}
