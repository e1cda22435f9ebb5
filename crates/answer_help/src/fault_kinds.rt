//! What each kind of fault means.

ghost use Rattle.answer_help.specs.FaultKinds.{fault_meaning};
ghost use Rattle.std.specs.Prelude.{◌≡◌};

use sexpr_text::FaultKind;

/// What a kind of fault means, as the documentation of the files' formats says it.
pub fn meaning_of(kind: &FaultKind) -> &'static str
    ensures { result.now ≡ fault_meaning kind.now }
{
    match kind {
        FaultKind::BadByte => "a byte outside a comment is no part of a text",
        FaultKind::StrayClose => "a `)` closes nothing",
        FaultKind::OpenAtEnd => "this `(` is never closed",
        FaultKind::TooDeep => "this `(` would be the 201st open one",
        FaultKind::NoDefine => "the file has no list of the wanted kind",
        FaultKind::BadForm => "a form is not built as it must be",
        FaultKind::UnknownName => {
            "a predicate, type, object or variable is not declared, or a plan's atom is no fluent"
        }
        FaultKind::DoubleName => "a name is declared twice",
        FaultKind::WrongArity => "an atom has too few or too many terms",
        FaultKind::TypeLoop => "a type is its own ancestor",
        FaultKind::ReservedName => "a predicate has the name of a connective",
        FaultKind::EmptyOneof => "there is nothing to choose from",
        FaultKind::LeftOut(_) => "a part of PDDL that is not read",
        FaultKind::OtherDomain => "the problem names another domain",
        FaultKind::GoalMissing => "the problem has neither `:goal` nor `:ctl-goal`",
        FaultKind::GoalTwice => "a second goal of one kind",
        FaultKind::WrongGoalKind => "the command wants the other kind of goal",
        FaultKind::NotChain => "no plans are found for a goal of this form",
        FaultKind::QuantifiedGoal => "a temporal operator stands under a quantifier",
        FaultKind::UnknownAction => "a rule's action is not in the listing",
        FaultKind::BadNumber => {
            "a number is out of range, or no numeral stands where one is wanted"
        }
        FaultKind::WrongPlanKind => "the command wants the other kind of plan",
        FaultKind::EmptyInit => "the problem has no initial state",
        FaultKind::BadWeight => {
            "a weight is no decimal number and no fraction, or the least common denominator of a list is above 10^18"
        }
        FaultKind::MassOver => "the weights of a list sum to more than 1",
    }
}
