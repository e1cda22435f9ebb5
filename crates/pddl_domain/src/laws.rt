//! What holds of every text. The law is a function that does nothing, so that callers' proofs can
//! cite it.

ghost use Rattle.std.specs.Prelude.{◌≡◌, ◌⊎◌, ℕ, List};
ghost use Rattle.sexpr_text.specs.declared.faults.InputFault.{InputFault};
ghost use Rattle.pddl_ast.specs.Trees.{DomainTree};
ghost use Rattle.pddl_domain.specs.Domains.{SpellsPlainDomain, HasPlainDomainFault};

/// Every text spells exactly one domain or has exactly one fault.
pub fn domain_or_fault()
    ensures spelled_or_faulty { (b : List ℕ) → ((d : DomainTree) × SpellsPlainDomain b d)
        ⊎ ((f : InputFault) × HasPlainDomainFault b f) }
    ensures one_domain { (b : List ℕ) (d e : DomainTree) → SpellsPlainDomain b d → SpellsPlainDomain b e → d
        ≡ e }
    ensures one_fault { (b : List ℕ) (f g : InputFault) → HasPlainDomainFault b f → HasPlainDomainFault b g
        → f ≡ g }
    ensures never_both { (b : List ℕ) (d : DomainTree) (f : InputFault) → SpellsPlainDomain b d
        → HasPlainDomainFault b f → ⊥ }
{}
