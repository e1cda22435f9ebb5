//! The laws of until-chains: what the sets say of every plan with contexts. Each is the contract of
//! a function that does nothing.

ghost use Rattle.std.specs.List.{find};
ghost use Rattle.std.specs.Prelude.{◌≡◌, ℕ, suc, ◌≤◌, ◌^◌, true, false, All, None, Some};
ghost use Rattle.task_core.specs.ContextPlans.{ContextPlan};
ghost use Rattle.task_core.specs.Cubes.{SetOfVectors};
ghost use Rattle.task_core.specs.Systems.{System, IsVector, IsSystem};
ghost use Rattle.task_core.specs.Vectors.{Vector};
ghost use Rattle.plan_rules.specs.Denoted.{denoted_contexts};
ghost use Rattle.plan_rules.specs.Plans.{IsContextRuleOf};
ghost use Rattle.plan_theory.specs.GuardedSets.{IsLastGuarded, IsLeastGuardedSet, guarded_action};
ghost use Rattle.plan_theory.specs.GuardedSets.{guarded_near, guarded_set};
ghost use Rattle.plan_theory.specs.Layers.{action_numbers, must_lead};
ghost use Rattle.plan_theory.specs.UntilChains.{UntilSets, covers_until, until_advance};
ghost use Rattle.plan_theory.specs.UntilChains.{until_contexts, until_win_at};
ghost use Rattle.plan_theory.specs.UntilPlans.{ActsAsUntil, HasNoUntilPlan, IsUntilPlan};
ghost use Rattle.plan_theory.specs.UntilPrinted.{until_action, until_rules};

/// The guarded set is the least set that has the states to be met and every state of the guard with
/// an action that leads into it. The sets of states by numbers of steps grow, one that is the next
/// one is the last one, and some number of steps up to the number of states has it.
pub fn guarded_set_is_least()
    ensures least { (sys : System) (guard met : SetOfVectors) → IsSystem sys
        → IsLeastGuardedSet sys guard met (guarded_set sys guard met) }
    ensures grow { (sys : System) (guard met : SetOfVectors) (v : Vector) (k m : ℕ) → k ≤ m
        → guarded_near sys guard met k v ≡ true → guarded_near sys guard met m v ≡ true }
    ensures last { (sys : System) (guard met : SetOfVectors) (k : ℕ) → IsSystem sys
        → IsLastGuarded sys guard met k → (v : Vector) → IsVector sys v
        → guarded_set sys guard met v ≡ guarded_near sys guard met k v }
    ensures at_last { (sys : System) (guard met : SetOfVectors)
        → (k : ℕ) × (k ≤ 2 ^ sys.fluents) × IsLastGuarded sys guard met k }
{}

/// A state that one step more has than so many steps takes the least-numbered action that leads to
/// the states of so many. Where the set is met, and outside the guarded set, there is no action.
pub fn guarded_actions_lead_nearer()
    ensures next { (sys : System) (guard met : SetOfVectors) (k : ℕ) (v : Vector) → IsSystem sys
        → IsVector sys v → guarded_near sys guard met (suc k) v ≡ true
        → guarded_near sys guard met k v ≡ false → guarded_action sys guard met v
        ≡ find (must_lead sys (guarded_near sys guard met k) v) (action_numbers sys) }
    ensures met { (sys : System) (guard met : SetOfVectors) (v : Vector) → met v ≡ true
        → guarded_action sys guard met v ≡ None }
    ensures outside { (sys : System) (guard met : SetOfVectors) (v : Vector)
        → guarded_set sys guard met v ≡ false → guarded_action sys guard met v ≡ None }
{}

/// In each state of a context, the first stage from there on that isn't met has a context of the
/// plan. The action towards it exists and can be executed, and every outcome of it is a state of
/// that context.
pub fn until_actions_lead_on()
    ensures context { (sys : System) (chain : UntilSets) (c : ℕ) (v : Vector) → 1 ≤ c
        → c ≤ until_contexts chain → (c ≤ until_advance sys chain c v)
        × (until_advance sys chain c v ≤ until_contexts chain) }
    ensures wins { (sys : System) (chain : UntilSets) (c : ℕ) (v : Vector) → 1 ≤ c
        → until_win_at sys chain c v ≡ true
        → until_win_at sys chain (until_advance sys chain c v) v ≡ true }
    ensures leads { (sys : System) (chain : UntilSets) (c : ℕ) (v : Vector) → IsSystem sys
        → IsVector sys v → 1 ≤ c → until_win_at sys chain c v ≡ true → (action : ℕ)
        × (until_action sys chain (until_advance sys chain c v) v ≡ Some action)
        × (must_lead sys (until_win_at sys chain (until_advance sys chain c v)) v action ≡ true) }
{}

/// Where each initial state is one of context 1, a plan that acts as printed goes on at each
/// configuration that it may reach, and each initial one has the until-chain.
pub fn printed_until_plan_has_goal()
    ensures solves { (sys : System) (chain : UntilSets) (plan : ContextPlan) → IsSystem sys
        → ActsAsUntil sys chain plan → covers_until sys chain ≡ true
        → IsUntilPlan sys chain plan }
{}

/// Where some initial state is none of context 1, no plan with contexts has the until-chain: not one
/// with more contexts than it has stages, nor one with infinitely many.
pub fn no_until_plan_without_cover()
    ensures none { (sys : System) (chain : UntilSets) → IsSystem sys
        → covers_until sys chain ≡ false → HasNoUntilPlan sys chain }
{}

/// The printed rules denote a plan that acts as printed. Each has a context and a next context of
/// the plan, and names fluents and an action of the system alone.
pub fn printed_until_rules_act()
    ensures acts { (sys : System) (chain : UntilSets) → IsSystem sys
        → ActsAsUntil sys chain (denoted_contexts (until_rules sys chain)) }
    ensures in_task { (sys : System) (chain : UntilSets)
        → All (IsContextRuleOf sys.fluents sys.actions (until_contexts chain))
        (until_rules sys chain) }
{}
