//! The laws of weak and strong planning: what the layers of states say of every table of a system.
//! Each is the contract of a function that does nothing (Cimatti, Pistore, Roveri and Traverso
//! 2003).

ghost use Rattle.std.specs.Prelude.{◌≡◌, ℕ, ◌≤◌, ◌^◌, true, false};
ghost use Rattle.std.specs.List.{Contains};
ghost use Rattle.task_core.specs.Vectors.{Vector};
ghost use Rattle.task_core.specs.Systems.{System, IsSystem, IsVector};
ghost use Rattle.task_core.specs.Tables.{IsTable, Table};
ghost use Rattle.task_core.specs.Solutions.{HasNoSolution, IsSolution, IsStrongSolution};
ghost use Rattle.plan_rules.specs.Denoted.{denoted, IsExecutable};
ghost use Rattle.plan_theory.specs.Bounds.{PathsAreWithin, ReachesGoalWithin};
ghost use Rattle.plan_theory.specs.Classes.{IsFoundByLayers, IsStable};
ghost use Rattle.plan_theory.specs.Layers.{layer, covers, IsLastLayer};
ghost use Rattle.plan_theory.specs.LayerPlans.{printed_rules};
ghost use Rattle.task_core.specs.declared.classes.Class.{Class};
ghost use Rattle.task_core.specs.declared.classes.Class.TheVariants.{Strong, Weak};

/// Each layer holds the states of the layers before it.
pub fn layers_grow()
    ensures grow { (class : Class) (sys : System) (v : Vector) (k m : ℕ) → k ≤ m
        → layer class sys k v ≡ true → layer class sys m v ≡ true }
{}

/// A layer that holds the same states as the next one holds those of all later ones; and some layer
/// up to the number of states does.
pub fn layers_stand_still()
    ensures later { (class : Class) (sys : System) (k j : ℕ) → IsSystem sys → IsStable class sys k
        → k ≤ j → (v : Vector) → IsVector sys v → layer class sys j v ≡ layer class sys k v }
    ensures at_last { (class : Class) (sys : System)
        → (k : ℕ) × (k ≤ 2 ^ sys.fluents) × IsStable class sys k }
{}

/// Where no layer holds every initial state, no table is a solution of the class, weak or strong:
/// not one with several actions for a state, nor one with actions in goal states.
pub fn no_plan_without_cover()
    ensures none { (class : Class) → IsFoundByLayers class → (sys : System) → IsSystem sys
        → ((k : ℕ) → covers class sys k ≡ false) → HasNoSolution class sys }
{}

/// Where a layer holds the same states as the next one, and not every initial state, no layer does,
/// and no table is a solution of the class.
pub fn no_plan_once_stable()
    ensures none { (class : Class) → IsFoundByLayers class → (sys : System) (k : ℕ)
        → IsSystem sys → IsStable class sys k → covers class sys k ≡ false
        → HasNoSolution class sys }
{}

/// Where layer K is the first that holds every initial state, the printed rules denote a solution
/// of the class, weak or strong, and no rule matches a state where its action can't be executed.
pub fn printed_plan_solves()
    ensures table { (class : Class) (sys : System) (K : ℕ) → IsSystem sys
        → IsTable sys (denoted sys (printed_rules class sys K)) }
    ensures solves { (class : Class) → IsFoundByLayers class → (sys : System) (K : ℕ)
        → IsSystem sys → IsLastLayer class sys K
        → IsSolution class sys (denoted sys (printed_rules class sys K)) }
    ensures executable { (class : Class) (sys : System) (K : ℕ)
        → IsExecutable sys (printed_rules class sys K) }
{}

/// From each initial state, the paths of a strong solution have at most as many steps as there are
/// states.
pub fn strong_plans_end()
    ensures { (sys : System) (table : Table) (s : Vector) → IsSystem sys
        → IsStrongSolution sys table → Contains sys.initial s
        → PathsAreWithin sys table s (2 ^ sys.fluents) }
{}

/// From each initial state, the longest path of the printed strong plan is no longer than that of
/// any strong solution, and the shortest path of the printed weak plan to a terminal goal state no
/// longer than that of any table.
pub fn printed_plan_is_shortest()
    ensures strong { (sys : System) (K : ℕ) (table : Table) (s : Vector) (n : ℕ) → IsSystem sys
        → IsTable sys table → IsStrongSolution sys table → Contains sys.initial s
        → PathsAreWithin sys table s n
        → PathsAreWithin sys (denoted sys (printed_rules Strong sys K)) s n }
    ensures weak { (sys : System) (K : ℕ) (table : Table) (s : Vector) (n : ℕ) → IsSystem sys
        → IsLastLayer Weak sys K → Contains sys.initial s → ReachesGoalWithin sys table s n
        → ReachesGoalWithin sys (denoted sys (printed_rules Weak sys K)) s n }
{}
