//! What a domain and a problem in PDDL mean: their objects, the instances of their actions, their
//! fluents, and the planning system and the task that they spell.
//!
//! These are definitions, in `specs/`, and laws about them; there is no code. They follow the usual
//! meaning of PDDL's typed STRIPS and ADL parts, with `oneof` effects, over finitely many objects:
//!
//! - `Objects`, `GroundAtoms`: the objects of a type, bindings of variables, atoms over objects;
//! - `Settings`, `ThreeValues`: what never changes, and the value of a formula as far as that alone
//!   decides it;
//! - `Instances`, `Outcomes`, `Fluents`: the numbered lists of kept instances and of fluents;
//! - `Truth`, `States`, `Systems`: the truth of a formula, which vectors are states, the vector after
//!   an outcome, the system;
//! - `Sizes`: what is counted before anything is built, and the limits;
//! - `Tasks`, `Values`: the task as plain trees;
//! - `CtlGoals`: the goal in computation tree logic, over formulas and over conditions;
//! - `Names`, `Laws`: what names are made of, and the statements of the laws.
#![tactic(auto)]

mod laws;

pub use laws::{
    bindings_and_outcomes_are_counted, domains_have_systems, effects_name_what_they_change,
    fluents_are_what_changes, grounded_goals_are_true, known_values_are_so,
    named_atoms_are_the_fluents, names_are_names, parts_make_a_task, read_names_are_words,
    tasks_have_the_system, without_invariant_each_vector_is_a_state,
};
