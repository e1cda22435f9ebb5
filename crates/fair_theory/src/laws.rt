//! The laws of goals whose actions may be tried again. Each is the contract of a function that does
//! nothing.

ghost use Rattle.std.specs.Prelude.{◌≡◌, ℕ, false};
ghost use Rattle.task_core.specs.ContextPlans.{Configuration, ContextPlan, IsFinite};
ghost use Rattle.task_core.specs.Cubes.{SetOfVectors};
ghost use Rattle.task_core.specs.Systems.{System, IsSystem};
ghost use Rattle.ctl_syntax.specs.Conditions.{condition_value};
ghost use Rattle.ctl_syntax.specs.GoalValues.{tree_of_goal};
ghost use Rattle.ctl_syntax.specs.Goals.{CtlTree, map_plain};
ghost use Rattle.ctl_syntax.specs.declared.context_goals.ContextGoal.{ContextGoal};
ghost use Rattle.task_core.specs.declared.conditions.Cond.{Cond};
ghost use Rattle.fair_theory.specs.FairGoals.{fair_tree};
ghost use Rattle.fair_theory.specs.FairPlans.{HasFairly, HasNoFairPlan, IsTrueFairly};
ghost use Rattle.fair_theory.specs.FairRuns.{HasFairOutcomes, IsRun, RunHas};
ghost use Rattle.fair_theory.specs.FairSets.{IsFairWin, SetGoal, covers_initial};

/// Where some initial state is none of those from which the goal can be had, no plan with contexts
/// has it: not one with more contexts than the goal has stages, nor one with infinitely many.
pub fn no_fair_plan_without_cover()
    ensures none { (sys : System) (goal : SetGoal) (set : SetOfVectors) → IsSystem sys
        → IsFairWin sys goal set → covers_initial sys set ≡ false → HasNoFairPlan sys goal }
{}

/// A run whose outcomes are fair has what the goal itself asks for, where the plan has finitely many
/// contexts and the run begins where the plan has the goal by which it is judged. Each place that
/// is promised is promised as: not at no place.
pub fn fair_runs_have_the_goal()
    ensures has { (sys : System) (goal : SetGoal) (plan : ContextPlan) (run : ℕ → Configuration)
        → IsSystem sys → IsFinite plan → IsRun sys plan run → HasFairOutcomes sys plan run
        → HasFairly sys plan goal (run 0) → RunHas run goal }
{}

/// The goal that `fair_goal` makes is true at the configurations at which the goal by which a plan is
/// judged is, over the sets of states of its conditions, whatever the plan.
pub fn fair_goals_are_true()
    ensures alike { (made : CtlTree Cond) (found : ContextGoal)
        → map_plain condition_value made ≡ fair_tree (tree_of_goal found)
        → IsTrueFairly made found }
{}
