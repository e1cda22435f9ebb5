//! What holds of every goal. Each law is a function that does nothing, so that callers' proofs can
//! cite it.

ghost use Rattle.std.specs.Prelude.{◌≡◌, List, Some};
ghost use Rattle.std.specs.Option.{option_map};
ghost use Rattle.task_core.specs.declared.conditions.Cond.{Cond};
ghost use Rattle.ctl_syntax.specs.ContextGoals.{plain_goal};
ghost use Rattle.ctl_syntax.specs.GoalValues.{IsTrueAlike, goal_conditions, tree_of_goal};
ghost use Rattle.ctl_syntax.specs.Goals.{CtlTree};
ghost use Rattle.ctl_syntax.specs.Patrols.{patrol_of};
ghost use Rattle.ctl_syntax.specs.UntilChains.{PlainUntil, until_of};
ghost use Rattle.ctl_syntax.specs.declared.context_goals.ContextGoal.{ContextGoal};

/// An until-chain or a patrol goal is true at the configurations at which the goal of its sets of
/// states is: what it asks for at once stands in one stage, and where it asks for no guard, or keeps
/// nothing, the `All` of none is the guard, or is kept. No goal is both.
pub fn context_goals_are_true()
    ensures alike { (goal : CtlTree Cond) (found : ContextGoal)
        → Some (tree_of_goal found) ≡ option_map goal_conditions (plain_goal goal)
        → IsTrueAlike goal found }
    ensures one { (goal : CtlTree Cond) (chain : PlainUntil Cond) (visits : List Cond)
        → until_of goal ≡ Some chain → patrol_of goal ≡ Some visits → ⊥ }
{}
