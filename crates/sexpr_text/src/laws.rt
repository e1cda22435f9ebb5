//! What holds of every text, whatever its length: it spells exactly one list of forms, or it has
//! exactly one fault. Each law is a function that does nothing, so that callers' proofs can cite
//! it.

ghost use Rattle.std.specs.Prelude.{◌≡◌, ℕ, List, ◌⊎◌};
ghost use Rattle.sexpr_text.specs.declared.faults.InputFault.{InputFault};
ghost use Rattle.sexpr_text.specs.declared.forms.Form.{Form};
ghost use Rattle.sexpr_text.specs.Forest.{Forest, forest_of};
ghost use Rattle.sexpr_text.specs.Spelling.{Spells, SpellsTrees};
ghost use Rattle.sexpr_text.specs.Faults.{HasFault};

/// No text spells two lists of forms: they stand for the same trees.
pub fn one_spelling()
    ensures trees { (b : List ℕ) (s t : Forest) → SpellsTrees b s → SpellsTrees b t → s ≡ t }
    ensures forms { (b : List ℕ) (fs gs : List Form) → Spells b fs → Spells b gs → forest_of fs
        ≡ forest_of gs }
{}

/// No text has two faults.
pub fn one_fault()
    ensures { (b : List ℕ) (f g : InputFault) → HasFault b f → HasFault b g → f ≡ g }
{}

/// No text that has a fault spells forms.
pub fn fault_rules_out_forms()
    ensures { (b : List ℕ) (f : InputFault) (s : Forest) → HasFault b f → SpellsTrees b s → ⊥ }
{}

/// Every text spells a list of trees or has a fault.
pub fn spelled_or_faulty()
    ensures { (b : List ℕ) → ((s : Forest) × SpellsTrees b s) ⊎ ((f : InputFault) × HasFault b f) }
{}
