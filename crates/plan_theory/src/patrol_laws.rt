//! The laws of patrol goals: what the sets say of every plan with contexts. Each is the contract of
//! a function that does nothing.

ghost use Rattle.std.specs.Prelude.{◌≡◌, ℕ, ◌≤◌, ◌^◌, ◌&&◌, true, false, All, List, Some, length};
ghost use Rattle.task_core.specs.ContextPlans.{ContextPlan};
ghost use Rattle.task_core.specs.Cubes.{SetOfVectors};
ghost use Rattle.task_core.specs.Systems.{System, IsVector, IsSystem};
ghost use Rattle.task_core.specs.Vectors.{Vector};
ghost use Rattle.plan_rules.specs.Denoted.{denoted_contexts};
ghost use Rattle.plan_rules.specs.Plans.{IsContextRuleOf};
ghost use Rattle.plan_theory.specs.Layers.{must_lead};
ghost use Rattle.plan_theory.specs.Patrols.{IsLargestPatrolSet, IsLastPatrolRound, covers_patrol};
ghost use Rattle.plan_theory.specs.Patrols.{patrol_round, patrol_set, visited};
ghost use Rattle.plan_theory.specs.PatrolPlans.{ActsAsPatrol, HasNoPatrolPlan, IsPatrolPlan};
ghost use Rattle.plan_theory.specs.PatrolPrinted.{patrol_action, patrol_next, patrol_rules};

/// What the rounds leave is the largest set of states from each of which every visit can be made
/// within the set. Each round leaves a part of what the round before left, a round that leaves all
/// is the last one, and some round up to the number of states does.
pub fn patrol_set_is_largest()
    ensures largest { (sys : System) (visits : List SetOfVectors) → IsSystem sys
        → IsLargestPatrolSet sys visits (patrol_set sys visits) }
    ensures shrink { (sys : System) (visits : List SetOfVectors) (v : Vector) (k m : ℕ) → k ≤ m
        → patrol_round sys visits m v ≡ true → patrol_round sys visits k v ≡ true }
    ensures last { (sys : System) (visits : List SetOfVectors) (r : ℕ) → IsSystem sys
        → IsLastPatrolRound sys visits r → (v : Vector) → IsVector sys v
        → patrol_set sys visits v ≡ patrol_round sys visits r v }
    ensures at_last { (sys : System) (visits : List SetOfVectors)
        → (r : ℕ) × (r ≤ 2 ^ sys.fluents) × IsLastPatrolRound sys visits r }
{}

/// In each state of the plan, in each context, there is an action. It can be executed, and every
/// outcome of it is a state of the plan; the next context is one of the plan. A visit is made in
/// each state of the plan in which its set holds.
pub fn patrol_actions_lead_on()
    ensures leads { (sys : System) (visits : List SetOfVectors) (c : ℕ) (v : Vector)
        → IsSystem sys → IsVector sys v → 1 ≤ c → c ≤ length visits
        → patrol_set sys visits v ≡ true → (action : ℕ)
        × (patrol_action sys visits c v ≡ Some action)
        × (must_lead sys (patrol_set sys visits) v action ≡ true) }
    ensures context { (visits : List SetOfVectors) (c : ℕ) (v : Vector) → 1 ≤ c
        → c ≤ length visits → (1 ≤ patrol_next visits c v)
        × (patrol_next visits c v ≤ length visits) }
    ensures made { (sys : System) (visits : List SetOfVectors) (visit : SetOfVectors) (v : Vector)
        → IsSystem sys → 1 ≤ length visits → IsVector sys v
        → visited sys (patrol_set sys visits) visit v ≡ patrol_set sys visits v && visit v }
{}

/// Where each initial state is one of the plan, and there is a visit, a plan that acts as printed
/// goes on at each configuration that it may reach, and each initial one has the patrol goal.
pub fn printed_patrol_plan_has_goal()
    ensures solves { (sys : System) (visits : List SetOfVectors) (plan : ContextPlan)
        → IsSystem sys → 1 ≤ length visits → ActsAsPatrol sys visits plan
        → covers_patrol sys visits ≡ true → IsPatrolPlan sys visits plan }
{}

/// Where some initial state is none of the plan, no plan with contexts has the patrol goal: not one
/// with more contexts than there are visits, nor one with infinitely many.
pub fn no_patrol_plan_without_cover()
    ensures none { (sys : System) (visits : List SetOfVectors) → IsSystem sys
        → covers_patrol sys visits ≡ false → HasNoPatrolPlan sys visits }
{}

/// The printed rules denote a plan that acts as printed. Each has a context and a next context of
/// the plan, and names fluents and an action of the system alone.
pub fn printed_patrol_rules_act()
    ensures acts { (sys : System) (visits : List SetOfVectors) → IsSystem sys
        → ActsAsPatrol sys visits (denoted_contexts (patrol_rules sys visits)) }
    ensures in_task { (sys : System) (visits : List SetOfVectors)
        → All (IsContextRuleOf sys.fluents sys.actions (length visits)) (patrol_rules sys visits) }
{}
