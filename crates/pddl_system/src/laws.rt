//! What is true of every domain and problem. Each law is a function that does nothing, so that
//! callers' proofs can cite it.

ghost use Rattle.pddl_system.specs.Laws.{
  ActionNamesAreNames,
  BindingsAreCounted,
  ChangedAtomsAreFluents,
  DroppedInstancesNeverRun,
  EffectsHaveOutcomes,
  ExecutableWherePreconditionHolds,
  FluentNamesAreNames,
  FluentsAreSorted,
  FluentsDiffer,
  GroundedGoalsAreShallow,
  GroundedGoalsAreTrue,
  GroundedGoalsNameFluents,
  ImpossibleChangesNeverCome,
  KnownValuesAreSo,
  NamedAtomsAreChanged,
  NamedAtomsAreFluents,
  NamedAtomsAreNoMore,
  NamedAtomsInOrderAreFluents,
  NamedAtomsMakeFluents,
  OutcomesAreCounted,
  OutcomesAreNumbered,
  PartsMakeTask,
  ReadNamesAreWords,
  RigidAtomsAreNoFluents,
  TaskHasTheSystem,
  TheyHaveASystem,
  WithoutInvariantEachOutcomeTakesPlace,
  WithoutInvariantEachVectorIsAState,
  WithoutInvariantExecutableWherePreconditionHolds,
  WithoutInvariantInitialVectorsAreStates,
};

/// There are as many bindings of variables, and as many outcomes of an effect, as their counts say,
/// which are made without building either.
pub fn bindings_and_outcomes_are_counted()
    ensures bindings { BindingsAreCounted }
    ensures outcomes { OutcomesAreCounted }
{}

/// An effect in which each choice has an alternative has an outcome, and names exactly the atoms
/// that some outcome of it may change.
pub fn effects_name_what_they_change()
    ensures outcomes { EffectsHaveOutcomes }
    ensures atoms { NamedAtomsAreChanged }
{}

/// A task that stands for the task of a domain and a problem has their system.
pub fn tasks_have_the_system()
    ensures { TaskHasTheSystem }
{}

/// Names that are words as texts spell them are words of a task.
pub fn read_names_are_words()
    ensures { ReadNamesAreWords }
{}

/// The names of fluents and of actions are those of a task: lists of words, all different, and no
/// fluent's name begins with `not`.
pub fn names_are_names()
    ensures fluents { FluentNamesAreNames }
    ensures actions { ActionNamesAreNames }
{}

/// Parts that stand for those of the task of a domain and a problem make a task, where no limit is
/// passed: what they name is among the fluents, their conditions are at most 200 deep, each action
/// has an outcome and each uncertain entry an alternative, and names are names.
pub fn parts_make_a_task()
    ensures { PartsMakeTask }
{}

/// What is known of a formula, as far as what never changes decides it, is so in every vector. So an
/// instance that isn't kept can be executed in no state, and a change that is known not to come
/// about never does.
pub fn known_values_are_so()
    ensures formulas { KnownValuesAreSo }
    ensures instances { DroppedInstancesNeverRun }
    ensures changes { ImpossibleChangesNeverCome }
{}

/// What a kept instance changes and what an uncertain entry names are fluents, each listed once, so
/// that every other atom keeps its initial value; no atom of a rigid predicate is one.
pub fn fluents_are_what_changes()
    ensures changed { ChangedAtomsAreFluents }
    ensures named { NamedAtomsAreFluents }
    ensures once { FluentsDiffer }
    ensures rigid { RigidAtomsAreNoFluents }
{}

/// The parts of the system of a domain and a problem fit together: initial and goal states and
/// outcomes are states over the fluents, and only kept instances can be executed, each exactly in
/// the states where its precondition holds and some outcome leads to a state.
pub fn domains_have_systems()
    ensures system { TheyHaveASystem }
    ensures numbered { OutcomesAreNumbered }
    ensures executable { ExecutableWherePreconditionHolds }
{}

/// In a domain without an invariant each vector is a state, an action can be executed exactly where
/// its precondition holds, and every outcome of it takes place.
pub fn without_invariant_each_vector_is_a_state()
    ensures inside { WithoutInvariantEachVectorIsAState }
    ensures initial { WithoutInvariantInitialVectorsAreStates }
    ensures executable { WithoutInvariantExecutableWherePreconditionHolds }
    ensures outcomes { WithoutInvariantEachOutcomeTakesPlace }
{}

/// The fluents are the atoms that kept instances' effects and uncertain entries name, each once, by
/// predicate and then by objects.
pub fn named_atoms_are_the_fluents()
    ensures named { NamedAtomsMakeFluents }
    ensures listed { NamedAtomsInOrderAreFluents }
    ensures count { NamedAtomsAreNoMore }
    ensures sorted { FluentsAreSorted }
{}

/// A goal in computation tree logic over conditions that stands for the grounded goal of a domain
/// and a problem is true where the goal of the text is, at every configuration, along the paths of
/// every plan. Its conditions name fluents alone, and are at most 199 deep.
pub fn grounded_goals_are_true()
    ensures truth { GroundedGoalsAreTrue }
    ensures fluents { GroundedGoalsNameFluents }
    ensures shallow { GroundedGoalsAreShallow }
{}
