//! What holds of every verdict. Each law is a function that does nothing, so that callers' proofs
//! can cite it.

ghost use Rattle.std.specs.Prelude.{◌≡◌, ◌↔◌, List};
ghost use Rattle.task_core.specs.Systems.{System};
ghost use Rattle.task_core.specs.ContextPlans.{ContextPlan};
ghost use Rattle.task_core.specs.declared.conditions.Cond.{Cond};
ghost use Rattle.ctl_syntax.specs.Goals.{CtlTree};
ghost use Rattle.task_core.specs.Solutions.{IsSolution};
ghost use Rattle.task_core.specs.declared.classes.Class.{Class};
ghost use Rattle.plan_rules.specs.Rules.{PlanRule};
ghost use Rattle.plan_rules.specs.Denoted.{denoted};
ghost use Rattle.plan_check.specs.Verdicts.{
  CanFollowRules,
  HasReason,
  IsFreeOf,
  IsVerdict,
  SaysYes,
};
ghost use Rattle.plan_check.specs.ContextVerdicts.{IsContextVerdict, IsTrueAt, MeetsGoal};
ghost use Rattle.plan_check.specs.declared.verdicts.Reason.{Reason};
ghost use Rattle.plan_check.specs.declared.verdicts.Verdict.{Verdict};

/// The verdict is yes exactly where each rule that matches a state which the plan may reach can be
/// followed there, and the table that the rules denote is a solution of the class.
pub fn yes_is_solution()
    ensures { (sys : System) (rules : List PlanRule) (class : Class) (verdict : Verdict)
        → IsVerdict sys rules class verdict
        → SaysYes verdict ↔ (CanFollowRules sys rules × IsSolution class sys (denoted sys rules)) }
{}

/// No plan has two verdicts.
pub fn one_verdict()
    ensures { (sys : System) (rules : List PlanRule) (class : Class) (verdict other : Verdict)
        → IsVerdict sys rules class verdict → IsVerdict sys rules class other → verdict ≡ other }
{}

/// No reason both speaks against a plan and doesn't.
pub fn reasons_exclude_freedom()
    ensures { (sys : System) (rules : List PlanRule) (class : Class) (reason : Reason)
        → HasReason sys rules reason class → IsFreeOf sys rules reason class → ⊥ }
{}

/// The verdict on a plan with contexts is yes exactly where the plan is complete and each initial
/// configuration has the goal.
pub fn yes_is_met()
    ensures { (sys : System) (plan : ContextPlan) (goal : CtlTree Cond) (verdict : Verdict)
        → IsContextVerdict sys plan (IsTrueAt sys plan goal) verdict
        → SaysYes verdict ↔ MeetsGoal sys plan (IsTrueAt sys plan goal) }
{}

/// No plan with contexts has two verdicts.
pub fn one_context_verdict()
    ensures { (sys : System) (plan : ContextPlan) (goal : CtlTree Cond) (verdict other : Verdict)
        → IsContextVerdict sys plan (IsTrueAt sys plan goal) verdict
        → IsContextVerdict sys plan (IsTrueAt sys plan goal) other → verdict ≡ other }
{}
