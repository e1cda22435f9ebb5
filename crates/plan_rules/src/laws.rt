//! What holds of every plan's text. Each law is a function that does nothing, so that callers'
//! proofs can cite it.

ghost use Rattle.std.specs.Prelude.{◌≡◌, ◌⊎◌, ℕ, List, length};
ghost use Rattle.sexpr_text.specs.declared.faults.InputFault.{InputFault};
ghost use Rattle.task_core.specs.Names.{Name};
ghost use Rattle.plan_rules.specs.Plans.{IsPlainPlanOf};
ghost use Rattle.plan_rules.specs.Readings.{AreSpellable, HasPlanFault, SpellsPlain};
ghost use Rattle.plan_rules.specs.Rules.{PlainPlan};
ghost use Rattle.plan_rules.specs.Texts.{text_of};

/// The text that is printed of a plan spells that plan, where the names of fluents and actions can
/// be spelled and the plan's numbers are theirs.
pub fn printed_spells()
    ensures { (fluents actions : List Name) (plan : PlainPlan) → AreSpellable fluents actions
        → IsPlainPlanOf (length fluents) (length actions) plan
        → SpellsPlain fluents actions (text_of fluents actions plan) plan }
{}

/// No text spells two plans.
pub fn one_plan()
    ensures { (fluents actions : List Name) (bytes : List ℕ) (plan other : PlainPlan)
        → SpellsPlain fluents actions bytes plan → SpellsPlain fluents actions bytes other
        → plan ≡ other }
{}

/// Every text spells a plan or has a fault, and none does both.
pub fn plan_or_fault()
    ensures answered { (fluents actions : List Name) (bytes : List ℕ)
        → ((plan : PlainPlan) × SpellsPlain fluents actions bytes plan)
        ⊎ ((fault : InputFault) × HasPlanFault fluents actions bytes fault) }
    ensures not_both { (fluents actions : List Name) (bytes : List ℕ) (plan : PlainPlan)
        (fault : InputFault) → SpellsPlain fluents actions bytes plan
        → HasPlanFault fluents actions bytes fault → ⊥ }
    ensures one_fault { (fluents actions : List Name) (bytes : List ℕ) (fault other : InputFault)
        → HasPlanFault fluents actions bytes fault → HasPlanFault fluents actions bytes other
        → fault ≡ other }
{}
