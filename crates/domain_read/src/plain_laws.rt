//! What holds of every text. Each law is a function that does nothing, so that callers' proofs can
//! cite it.

ghost use Rattle.std.specs.Prelude.{◌≡◌, ◌⊎◌, ◌*◌, ℕ, List, Option, Some, Contains};
ghost use Rattle.sexpr_text.specs.declared.faults.InputFault.{InputFault};
ghost use Rattle.domain_read.specs.declared.weights.Fraction.{Fraction};
ghost use Rattle.domain_read.specs.Plain.{IsPlainOf, HasPlainFault};
ghost use Rattle.domain_read.specs.Weights as weights;

/// Every text has exactly one plain text or exactly one fault.
pub fn plain_or_fault()
    ensures plain_or_faulty { (b : List ℕ) → ((text : List ℕ) × IsPlainOf b text)
        ⊎ ((f : InputFault) × HasPlainFault b f) }
    ensures one_text { (b s t : List ℕ) → IsPlainOf b s → IsPlainOf b t → s ≡ t }
    ensures one_fault { (b : List ℕ) (f g : InputFault) → HasPlainFault b f → HasPlainFault b g
        → f ≡ g }
    ensures never_both { (b text : List ℕ) (f : InputFault) → IsPlainOf b text
        → HasPlainFault b f → ⊥ }
{}

/// Weights are added exactly: in parts of the common denominator `m`, each counts for as many as the
/// fraction is.
pub fn weights_are_exact()
    ensures { (ws : List (Option Fraction)) (m : ℕ) (w : Fraction)
        → weights.common_of 1 ws ≡ Some m → Contains ws (Some w)
        → weights.shares m (Some w) * w.under ≡ w.over * m }
{}
