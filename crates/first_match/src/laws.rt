//! The law of rules that agree. The function does nothing, and its contract is the law.

ghost use Rattle.std.specs.Prelude.{◌≡◌, List, true};
ghost use Rattle.std.specs.List.{Contains};
ghost use Rattle.task_core.specs.Cubes.{matches};
ghost use Rattle.task_core.specs.Solutions.{IsReached, IsSolution};
ghost use Rattle.task_core.specs.Systems.{Exec, IsSystem, System};
ghost use Rattle.task_core.specs.Vectors.{Vector};
ghost use Rattle.plan_rules.specs.Denoted.{denoted};
ghost use Rattle.plan_rules.specs.Rules.{PlanRule};
ghost use Rattle.first_match.specs.FirstMatch.{RulesAgree, SolvesAsRun};

use plan_rules::Class;

/// Where rules agree and are a solution as they are run, the table of all rules that match is one too,
/// and each rule that matches a state which it may reach can be followed there.
pub fn agreeing_rules_solve()
    ensures solves { (class : Class) (sys : System) (rules : List PlanRule) → IsSystem sys
        → SolvesAsRun class sys rules → RulesAgree sys rules
        → IsSolution class sys (denoted sys rules) }
    ensures followed { (class : Class) (sys : System) (rules : List PlanRule) → IsSystem sys
        → SolvesAsRun class sys rules → RulesAgree sys rules → (s : Vector) (rule : PlanRule)
        → IsReached sys (denoted sys rules) s → Contains rules rule
        → matches rule.cube s ≡ true → Exec sys s rule.action }
{}
