//! What holds of the flaws and of the trees of every row of forms. Each law is a function that does
//! nothing, so that callers' proofs can cite it.

ghost use Rattle.std.specs.Prelude.{◌≡◌, ◌≤◌, ◌<◌, ◌+◌, ◌-◌, ◌++◌, ℕ, List, []};
ghost use Rattle.std.specs.Prelude.{All, length, true};
ghost use Rattle.sexpr_text.specs.declared.forms.Span.{Span};
ghost use Rattle.sexpr_text.specs.Forest.{Forest};
ghost use Rattle.sexpr_text.specs.Formed.{IsRising, nesting_of};
ghost use Rattle.sexpr_text.specs.Flaws.{IsInOrder};
ghost use Rattle.pddl_ast.specs.declared.typed_lists.Declares.{Declares};
ghost use Rattle.pddl_ast.specs.declared.typed_lists.Declares.TheVariants.{
  Objects,
  Variables,
  PredicateVariables,
};
ghost use Rattle.pddl_ast.specs.Atoms.{atom_flaws, ground_atom, ground_atom_flaws};
ghost use Rattle.pddl_ast.specs.Depth.{effect_depth, formula_depth, temporal_depth};
ghost use Rattle.pddl_ast.specs.Effects.{effect_flaws, effect_of, effects_flaws, effects_of};
ghost use Rattle.pddl_ast.specs.Effects.{first_effect};
ghost use Rattle.pddl_ast.specs.Fits.{AreDistinct, IsKnown};
ghost use Rattle.pddl_ast.specs.Fits.{FitsEffect, FitsFormula, FitsGroundAtom, FitsTemporal};
ghost use Rattle.pddl_ast.specs.Formulas.{formula_flaws, formula_of, formulas_flaws};
ghost use Rattle.pddl_ast.specs.Formulas.{first_formula, formulas_of};
ghost use Rattle.pddl_ast.specs.Goals.{temporal_flaws, temporal_of, temporals_flaws};
ghost use Rattle.pddl_ast.specs.Known.{Known};
ghost use Rattle.pddl_ast.specs.TypedLists.{Group, names_of, typed_groups};
ghost use Rattle.pddl_ast.specs.TypedLists.{all_seen, is_wanted, typed_list_flaws, types_of};

/// The flaws of a typed list are listed in the order of the text, so that the first of the list is
/// the first of them all.
pub fn typed_lists_in_order()
    ensures { (declares : Declares) (types before : List (List ℕ)) (list : Forest) (lo hi : ℕ)
        → IsRising lo hi list → IsInOrder lo hi (typed_list_flaws declares types before list) }
{}

/// The flaws of an atom are listed in the order of the text. They stand from its list's parenthesis
/// on; its head begins no earlier, and its terms rise from the end of the head.
pub fn atoms_in_order()
    ensures atom { (known : Known) (scope : List (List ℕ)) (span head : Span) (w : List ℕ)
        (terms : Forest) (hi : ℕ)
        → span.start ≤ head.start → head.start < head.end → IsRising head.end hi terms
        → IsInOrder span.start hi (atom_flaws known scope span head w terms) }
    ensures ground_atom { (known : Known) (span head : Span) (w : List ℕ) (terms : Forest) (hi : ℕ)
        → span.start ≤ head.start → head.start < head.end → IsRising head.end hi terms
        → IsInOrder span.start hi (ground_atom_flaws known span head w terms) }
{}

/// The flaws of formulas are listed in the order of the text: those of a row, and those of one,
/// within its list.
pub fn formulas_in_order()
    ensures row { (known : Known) (row : Forest) (scope : List (List ℕ)) (lo hi : ℕ)
        → IsRising lo hi row → IsInOrder lo hi (formulas_flaws known row scope) }
    ensures formula { (known : Known) (parts : Forest) (span : Span) (scope : List (List ℕ))
        → span.start + 2 ≤ span.end → IsRising (span.start + 1) (span.end - 1) parts
        → IsInOrder span.start span.end (formula_flaws known parts span scope) }
{}

/// The flaws of effects are listed in the order of the text: those of a row, and those of one,
/// within its list.
pub fn effects_in_order()
    ensures row { (known : Known) (row : Forest) (scope : List (List ℕ)) (lo hi : ℕ)
        → IsRising lo hi row → IsInOrder lo hi (effects_flaws known row scope) }
    ensures effect { (known : Known) (parts : Forest) (span : Span) (scope : List (List ℕ))
        → span.start + 2 ≤ span.end → IsRising (span.start + 1) (span.end - 1) parts
        → IsInOrder span.start span.end (effect_flaws known parts span scope) }
{}

/// The flaws of goals in computation tree logic are listed in the order of the text: those of a row,
/// and those of one, within its list.
pub fn goals_in_order()
    ensures row { (known : Known) (row : Forest) (lo hi : ℕ)
        → IsRising lo hi row → IsInOrder lo hi (temporals_flaws known row) }
    ensures goal { (known : Known) (parts : Forest) (span : Span)
        → span.start + 2 ≤ span.end → IsRising (span.start + 1) (span.end - 1) parts
        → IsInOrder span.start span.end (temporal_flaws known parts span) }
{}

/// The names of a typed list without flaws differ from one another and from those before them, and
/// are of the kind that it declares.
pub fn typed_lists_fit()
    ensures different { (declares : Declares) (types before : List (List ℕ)) (list : Forest)
        → AreDistinct before → typed_list_flaws declares types before list ≡ []
        → AreDistinct (all_seen declares (names_of (typed_groups list)) before) }
    ensures wanted { (declares : Declares) (types before : List (List ℕ)) (list : Forest)
        → AreDistinct before → typed_list_flaws declares types before list ≡ []
        → All (λ name. is_wanted declares name ≡ true) (names_of (typed_groups list)) }
{}

/// The names that are declared after a typed list: its constants, objects and variables are added
/// to those before it, and a predicate's variables aren't.
pub fn names_are_added()
    ensures objects { (names before : List (List ℕ))
        → all_seen Objects names before ≡ before ++ names }
    ensures variables { (names before : List (List ℕ))
        → all_seen Variables names before ≡ before ++ names }
    ensures predicate_variables { (names before : List (List ℕ))
        → all_seen PredicateVariables names before ≡ before }
{}

/// The types of a typed list are in range, one for each name.
pub fn types_fit()
    ensures within { (types : List (List ℕ)) (groups : List Group) → 0 < length types
        → All (λ t. t < length types) (types_of types groups) }
    ensures one_each { (types : List (List ℕ)) (groups : List Group)
        → length (types_of types groups) ≡ length (names_of groups) }
{}

/// An atom without flaws over constants and objects fits what is known.
pub fn ground_atoms_fit()
    ensures { (known : Known) (span head : Span) (w : List ℕ) (terms : Forest) → IsKnown known
        → ground_atom_flaws known span head w terms ≡ []
        → FitsGroundAtom known (ground_atom known w terms) }
{}

/// A formula without flaws fits what is known, and is no deeper than its list: the formula of a
/// list with these parts, and the first of a row (or `()`, where the row is empty).
pub fn formulas_fit()
    ensures formula { (known : Known) (parts : Forest) (span : Span) (scope : List (List ℕ))
        → IsKnown known
        → formula_flaws known parts span scope ≡ []
        → FitsFormula known (formula_of known parts scope) (length scope)
        × (formula_depth (formula_of known parts scope) ≤ 1 + nesting_of parts) }
    ensures first { (known : Known) (row : Forest) (scope : List (List ℕ)) → IsKnown known
        → formulas_flaws known row scope ≡ []
        → FitsFormula known (first_formula (formulas_of known row scope)) (length scope)
        × (formula_depth (first_formula (formulas_of known row scope)) ≤ 1 + nesting_of row) }
{}

/// An effect without flaws fits what is known, and is no deeper than its list: the effect of a list
/// with these parts, and the first of a row (or `()`, where the row is empty).
pub fn effects_fit()
    ensures effect { (known : Known) (parts : Forest) (span : Span) (scope : List (List ℕ))
        → IsKnown known
        → effect_flaws known parts span scope ≡ []
        → FitsEffect known (effect_of known parts scope) (length scope)
        × (effect_depth (effect_of known parts scope) ≤ 1 + nesting_of parts) }
    ensures first { (known : Known) (row : Forest) (scope : List (List ℕ)) → IsKnown known
        → effects_flaws known row scope ≡ []
        → FitsEffect known (first_effect (effects_of known row scope)) (length scope)
        × (effect_depth (first_effect (effects_of known row scope)) ≤ 1 + nesting_of row) }
{}

/// A goal in computation tree logic without flaws fits what is known, without free variables. It is
/// at most one deeper than its list, since a formula is counted once more as a part of the goal.
pub fn goals_fit()
    ensures { (known : Known) (parts : Forest) (span : Span) → IsKnown known
        → temporal_flaws known parts span ≡ []
        → FitsTemporal known (temporal_of known parts) 0
        × (temporal_depth (temporal_of known parts) ≤ 2 + nesting_of parts) }
{}
