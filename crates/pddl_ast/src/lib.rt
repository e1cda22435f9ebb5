//! Planning domains and problems as trees, and the parts that their readers share: typed lists,
//! terms, atoms, formulas, effects and goals in computation tree logic.
//!
//! `trees` has the types; `specs/Trees.antt` the plain trees that they stand for, and
//! `specs/Fits.antt` what holds of every domain and problem that is read. `specs/TypedLists.antt`,
//! `specs/Atoms.antt`, `specs/Formulas.antt`, `specs/Effects.antt` and `specs/Goals.antt` say what is
//! wrong in a row of forms, as the list of all its flaws in the order of the text, and which tree it
//! is. A reader gives exactly that tree where the list is empty, and else the list's first flaw; it
//! may fail for want of memory. `laws` says that the flaws stand in order and that what has none
//! fits.
#![tactic(auto)]

mod atoms;
mod definitions;
mod effects;
mod formulas;
mod goal_words;
mod goals;
mod headed;
mod keywords;
mod known;
mod laws;
mod names;
mod scope;
mod trees;
mod typed_lists;

pub use atoms::{read_atom, read_ground_atom, read_terms};
pub use definitions::{no_define, title_of};
pub use effects::{no_change, read_effect};
pub use formulas::{always, enter_groups, read_formula, read_variables};
pub use goal_words::{GoalWord, goal_word, is_operator};
pub use goals::read_temporal;
pub use headed::HeadedList;
pub use keywords::{Keyword, is_dash, is_left_out, is_reserved, is_variable, keyword_of, spells};
pub use known::{Known, arities_of};
pub use laws::{
    atoms_in_order, effects_fit, effects_in_order, formulas_fit, formulas_in_order, goals_fit,
    goals_in_order, ground_atoms_fit, names_are_added, typed_lists_fit, typed_lists_in_order,
    types_fit,
};
pub use names::NameTable;
pub use scope::Scope;
pub use trees::{
    BinaryOperator, Domain, Effect, Formula, GroundAtom, InitialLiteral, Named, ObjectId, Objects,
    Predicate, PredicateId, Problem, Schema, Temporal, Term, Terms, TypeId, UnaryOperator,
};
pub use typed_lists::{Declares, TypedGroup, objects_of, read_typed_list, types_of};
