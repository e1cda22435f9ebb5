//! The law of rules that were judged without a list of states. The function does nothing, and its
//! contract is the law.

ghost use Rattle.std.specs.Prelude.{◌↔◌, List};
ghost use Rattle.task_core.specs.Systems.{IsSystem, System};
ghost use Rattle.plan_rules.specs.Rules.{PlanRule};
ghost use Rattle.first_match.specs.FirstMatch.{AreGoodAsRun};
ghost use Rattle.controller_rules.specs.Unlisted.{AreGoodUnlisted};

use plan_rules::Class;

/// Rules that are good as they are run, the first that matches counting, are those of a controller, and
/// no others are: read as plans are read they are a solution too, and whichever of the rules that match
/// is taken, the same is done.
pub fn good_rules_control()
    ensures { (class : Class) (sys : System) (rules : List PlanRule) → IsSystem sys
        → (AreGoodAsRun class sys rules ↔ AreGoodUnlisted class sys rules) }
{}
