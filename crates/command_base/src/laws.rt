//! That a text is read in one way.

ghost use Rattle.command_base.specs.OneReading.{OneReading};

use domain_read::domain_or_fault;
use pddl_problem::one_answer;
use plan_rules::plan_or_fault;
use sexpr_text::one_spelling;

/// A text is read in one way.
pub fn texts_are_read_one_way()
    ensures { OneReading }
{
    // These do nothing: all rests on what they promise.
    domain_or_fault();
    one_answer();
    one_spelling();
    plan_or_fault();
}
