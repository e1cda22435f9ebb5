//! The laws that until-chains and patrol goals share. Each is the contract of a function that does
//! nothing (Pistore and Traverso 2001).

ghost use Rattle.std.specs.List.{find};
ghost use Rattle.std.specs.Prelude.{◌≡◌, ℕ, suc, ◌≤◌, ◌^◌, true, false, List, None};
ghost use Rattle.task_core.specs.ContextPlans.{IsFinite};
ghost use Rattle.task_core.specs.Cubes.{SetOfVectors};
ghost use Rattle.task_core.specs.Systems.{System, IsVector, IsSystem};
ghost use Rattle.task_core.specs.Vectors.{Vector};
ghost use Rattle.plan_rules.specs.Denoted.{denoted_contexts};
ghost use Rattle.plan_rules.specs.Rules.{ContextRule};
ghost use Rattle.plan_theory.specs.Layers.{action_numbers, must_lead};
ghost use Rattle.plan_theory.specs.Safe.{IsLargestSafeSet, IsLastSafeRound, safe_round, safe_set};
ghost use Rattle.plan_theory.specs.StageSets.{IsLastNear, IsLeastStageSet, near, stage_action};
ghost use Rattle.plan_theory.specs.StageSets.{stage_set};

/// The safe set is the largest part of a set such that each state has an action that stays in that
/// part. The rounds by which it is found each leave a part of what the round before left, a round
/// that leaves all is the last one, and some round up to the number of states does.
pub fn safe_set_is_largest()
    ensures largest { (sys : System) (keep : SetOfVectors) → IsSystem sys
        → IsLargestSafeSet sys keep (safe_set sys keep) }
    ensures shrink { (sys : System) (keep : SetOfVectors) (v : Vector) (k m : ℕ) → k ≤ m
        → safe_round sys keep m v ≡ true → safe_round sys keep k v ≡ true }
    ensures last { (sys : System) (keep : SetOfVectors) (k : ℕ) → IsSystem sys
        → IsLastSafeRound sys keep k → (v : Vector) → IsVector sys v
        → safe_set sys keep v ≡ safe_round sys keep k v }
    ensures at_last { (sys : System) (keep : SetOfVectors)
        → (k : ℕ) × (k ≤ 2 ^ sys.fluents) × IsLastSafeRound sys keep k }
{}

/// The stage set is the least set that has the states to be met and every state with an action that
/// leads into it. The sets of states by numbers of steps grow, one that is the next one is the last
/// one, and some number of steps up to the number of states has it.
pub fn stage_set_is_least()
    ensures least { (sys : System) (met : SetOfVectors) → IsSystem sys
        → IsLeastStageSet sys met (stage_set sys met) }
    ensures grow { (sys : System) (met : SetOfVectors) (v : Vector) (k m : ℕ) → k ≤ m
        → near sys met k v ≡ true → near sys met m v ≡ true }
    ensures last { (sys : System) (met : SetOfVectors) (k : ℕ) → IsSystem sys
        → IsLastNear sys met k → (v : Vector) → IsVector sys v
        → stage_set sys met v ≡ near sys met k v }
    ensures at_last { (sys : System) (met : SetOfVectors)
        → (k : ℕ) × (k ≤ 2 ^ sys.fluents) × IsLastNear sys met k }
{}

/// A state that one step more has than so many steps takes the least-numbered action that leads to
/// the states of so many. Where the set is met, and outside the stage set, there is no action.
pub fn stage_actions_lead_nearer()
    ensures next { (sys : System) (met : SetOfVectors) (k : ℕ) (v : Vector) → IsSystem sys
        → IsVector sys v → near sys met (suc k) v ≡ true → near sys met k v ≡ false
        → stage_action sys met v ≡ find (must_lead sys (near sys met k) v) (action_numbers sys) }
    ensures met { (sys : System) (met : SetOfVectors) (v : Vector) → met v ≡ true
        → stage_action sys met v ≡ None }
    ensures outside { (sys : System) (met : SetOfVectors) (v : Vector)
        → stage_set sys met v ≡ false → stage_action sys met v ≡ None }
{}

/// A plan that rules denote, and so the printed one, acts in finitely many contexts.
pub fn rules_have_finitely_many_contexts()
    ensures finite { (rules : List ContextRule) → IsFinite (denoted_contexts rules) }
{}
