//! The laws of strong cyclic planning: what the largest set of pairs says of every table of a
//! system. Each is the contract of a function that does nothing (Cimatti, Pistore, Roveri and
//! Traverso 2003).

ghost use Rattle.std.specs.Prelude.{◌≡◌, ℕ, ◌≤◌, ◌^◌, true, false};
ghost use Rattle.std.specs.List.{Contains};
ghost use Rattle.task_core.specs.Vectors.{Vector};
ghost use Rattle.task_core.specs.Systems.{System, IsSystem, IsVector};
ghost use Rattle.task_core.specs.Tables.{IsTable, Table};
ghost use Rattle.task_core.specs.Solutions.{HasNoSolution, IsReached, IsSolution};
ghost use Rattle.plan_rules.specs.Denoted.{denoted, IsExecutable};
ghost use Rattle.plan_theory.specs.LargestSets.{covers, IsLargestSet};
ghost use Rattle.plan_theory.specs.Pairs.{is_goal, Pairs};
ghost use Rattle.plan_theory.specs.CyclicPlans.{cyclic_rules};
ghost use Rattle.plan_theory.specs.PairRounds.{IsLastRound, kept, round};
ghost use Rattle.task_core.specs.declared.classes.Class.TheVariants.{Cyclic};

/// Each round leaves no other states than the rounds before it.
pub fn rounds_shrink()
    ensures shrink { (sys : System) (v : Vector) (r m : ℕ) → r ≤ m
        → round sys m v ≡ true → round sys r v ≡ true }
{}

/// Where a round leaves the same states as the next one, so do all later ones; and some round up to
/// the number of states is such a one.
pub fn rounds_stand_still()
    ensures later { (sys : System) (r m : ℕ) → IsSystem sys → IsLastRound sys r → r ≤ m
        → (v : Vector) → IsVector sys v → round sys m v ≡ round sys r v }
    ensures at_last { (sys : System)
        → (r : ℕ) × (r ≤ 2 ^ sys.fluents) × IsLastRound sys r }
{}

/// The pairs that are kept where the rounds stand still are the largest set; so there is one.
pub fn last_round_is_largest()
    ensures exists { (sys : System) → IsSystem sys → (pairs : Pairs) × IsLargestSet sys pairs }
    ensures largest { (sys : System) (r : ℕ) → IsSystem sys → IsLastRound sys r
        → IsLargestSet sys (kept sys (round sys r)) }
{}

/// Outside the goal, the reachable pairs of a strong cyclic solution are kept in every round.
pub fn solutions_outlast_rounds()
    ensures kept { (sys : System) (table : Table) (r : ℕ) (v : Vector) (a : ℕ) → IsSystem sys
        → IsTable sys table → IsSolution Cyclic sys table → IsReached sys table v
        → Contains table (v, a) → is_goal sys v ≡ false → kept sys (round sys r) v a ≡ true }
{}

/// Where each initial state is a goal state or has a pair of the largest set, the printed rules
/// denote a strong cyclic solution; and no rule matches a state where its action can't be executed.
pub fn cyclic_plan_solves()
    ensures table { (sys : System) (pairs : Pairs) → IsSystem sys
        → IsTable sys (denoted sys (cyclic_rules sys pairs)) }
    ensures solves { (sys : System) (pairs : Pairs) → IsSystem sys → IsLargestSet sys pairs
        → covers sys pairs ≡ true → IsSolution Cyclic sys (denoted sys (cyclic_rules sys pairs)) }
    ensures executable { (sys : System) (pairs : Pairs)
        → IsExecutable sys (cyclic_rules sys pairs) }
{}

/// Where some initial state is neither a goal state nor has a pair of the largest set, no table is
/// a strong cyclic solution: not one with several actions for a state, nor one with actions in goal
/// states.
pub fn no_cyclic_plan_without_cover()
    ensures none { (sys : System) (pairs : Pairs) → IsSystem sys → IsLargestSet sys pairs
        → covers sys pairs ≡ false → HasNoSolution Cyclic sys }
{}
