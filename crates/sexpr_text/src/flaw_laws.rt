//! What holds of the flaws of passes, whatever the passes. Each law is a function that does
//! nothing, so that callers' proofs can cite it.

ghost use Rattle.std.specs.Prelude.{
  ◌≡◌,
  ◌⊎◌,
  ◌≤◌,
  ◌++◌,
  ◌∷◌,
  [],
  ℕ,
  List,
  Some,
  None,
};
ghost use Rattle.std.specs.Option.{option_map};
ghost use Rattle.sexpr_text.specs.declared.faults.InputFault.{InputFault};
ghost use Rattle.sexpr_text.specs.declared.forms.Span.{Span};
ghost use Rattle.sexpr_text.specs.Flaws.{
  Flaw,
  IsFirstOf,
  IsInOrder,
  fault_of_passes,
  first_listed,
  first_of,
};
ghost use Rattle.sexpr_text.specs.Forest.{Forest};
ghost use Rattle.sexpr_text.specs.Formed.{IsRising};
ghost use Rattle.sexpr_text.specs.Ordered.{AreGroupFlaws, IsFlawless};
ghost use Rattle.sexpr_text.specs.Parts.{flaws_of_groups};
ghost use Rattle.sexpr_text.specs.Passes.{HasFaultBy};

/// The first of a list of flaws is one of them that no other comes before; only the empty list has
/// none.
pub fn first_is_least()
    ensures least { (flaws : List Flaw) (f : Flaw) → first_of flaws ≡ Some f → IsFirstOf flaws f }
    ensures none { (flaws : List Flaw) → first_of flaws ≡ None → flaws ≡ [] }
{}

/// Flaws in order: the first is the one that the list begins with. A list may begin at a lesser
/// offset and end at a greater one, and two lists in order are one.
pub fn listed_in_order()
    ensures first { (lo hi : ℕ) (flaws : List Flaw) → IsInOrder lo hi flaws
        → option_map (λ (f : Flaw). f.fault) (first_of flaws) ≡ first_listed flaws }
    ensures from { (lo low hi : ℕ) (flaws : List Flaw) → lo ≤ low → IsInOrder low hi flaws
        → IsInOrder lo hi flaws }
    ensures up_to { (lo hi high : ℕ) (flaws : List Flaw) → hi ≤ high → IsInOrder lo hi flaws
        → IsInOrder lo high flaws }
    ensures joined { (lo mid hi : ℕ) (flaws others : List Flaw) → IsInOrder lo mid flaws
        → IsInOrder mid hi others → IsInOrder lo hi (flaws ++ others) }
{}

/// Flaws of groups that are in order within each group are in order in a row of groups.
pub fn groups_in_order()
    ensures { (flaws : Span → Forest → List Flaw) → AreGroupFlaws flaws → (lo hi : ℕ) (row : Forest)
        → IsRising lo hi row
        → IsInOrder lo hi (flaws_of_groups flaws row) }
{}

/// The fault of passes: that of the passes that follow a pass without flaws, and of a pass whose
/// flaws are in order the one that they begin with.
pub fn passes_in_order()
    ensures none { fault_of_passes [] ≡ None }
    ensures later { (passes : List (List Flaw))
        → fault_of_passes ([] ∷ passes) ≡ fault_of_passes passes }
    ensures first { (lo hi : ℕ) (flaws : List Flaw) (passes : List (List Flaw)) (fault : InputFault)
        → IsInOrder lo hi flaws → first_listed flaws ≡ Some fault
        → fault_of_passes (flaws ∷ passes) ≡ Some fault }
{}

/// Every text spells forms in which no pass lists a flaw, or has a fault; never both, and never
/// two.
pub fn flawless_or_faulty()
    ensures answered { (passes : Forest → List (List Flaw)) (b : List ℕ)
        → ((trees : Forest) × IsFlawless passes b trees)
        ⊎ ((f : InputFault) × HasFaultBy passes b f) }
    ensures not_both { (passes : Forest → List (List Flaw)) (b : List ℕ) (trees : Forest)
        (f : InputFault) → IsFlawless passes b trees → HasFaultBy passes b f → ⊥ }
    ensures one_fault { (passes : Forest → List (List Flaw)) (b : List ℕ) (f g : InputFault)
        → HasFaultBy passes b f → HasFaultBy passes b g → f ≡ g }
{}
