//! What holds of every text and every domain. The law is a function that does nothing, so that
//! callers' proofs can cite it.

ghost use Rattle.std.specs.Prelude.{◌≡◌, ◌⊎◌, ℕ, List};
ghost use Rattle.sexpr_text.specs.declared.faults.InputFault.{InputFault};
ghost use Rattle.pddl_ast.specs.Trees.{DomainTree, ProblemTree};
ghost use Rattle.pddl_problem.specs.Problems.{SpellsProblem, HasProblemFault};

/// Relative to a domain every text either spells exactly one problem or has exactly one fault.
pub fn one_answer()
    ensures spelled_or_faulty { (b : List ℕ) (d : DomainTree)
        → ((p : ProblemTree) × SpellsProblem b d p) ⊎ ((f : InputFault) × HasProblemFault b d f) }
    ensures one_problem { (b : List ℕ) (d : DomainTree) (p q : ProblemTree)
        → SpellsProblem b d p → SpellsProblem b d q → p ≡ q }
    ensures one_fault { (b : List ℕ) (d : DomainTree) (f g : InputFault)
        → HasProblemFault b d f → HasProblemFault b d g → f ≡ g }
    ensures never_both { (b : List ℕ) (d : DomainTree) (p : ProblemTree) (f : InputFault)
        → SpellsProblem b d p → HasProblemFault b d f → ⊥ }
{}
