//! Faults: what can be wrong with an input, with its place.

ghost use Rattle.std.specs.Prelude.{◌≡◌};
ghost use Rattle.std.specs.Option.{option_copied};
ghost use Rattle.sexpr_text.specs.Kinds.{code_of, code_and_name, kind_name, word_of};
ghost use Rattle.sexpr_text.specs.declared.faults.ReadErr.TheVariants.{Memory};

use crate::forms::Place;
use crate::texts::Text;
use std::alloc::{AllocError, AllocFailed};

/// The kinds of faults of an input, each with a number and a name.
#[derive(Debug, Drop)]
pub enum FaultKind {
    /// 1: a byte outside a comment that is no white space, parenthesis or byte of a word.
    BadByte,
    /// 2: a `)` that closes nothing.
    StrayClose,
    /// 3: a `(` that is never closed.
    OpenAtEnd,
    /// 4: a `(` that would be the 201st open one.
    TooDeep,
    /// 5: the form that the input is about is missing.
    NoDefine,
    /// 6: a form of another shape than the one that is wanted at its place.
    BadForm,
    /// 7: a name that nothing declares.
    UnknownName,
    /// 8: a name that is declared twice.
    DoubleName,
    /// 9: a predicate with another number of terms than it is declared with.
    WrongArity,
    /// 10: a type that is its own ancestor.
    TypeLoop,
    /// 11: a predicate named by a word that has a meaning of its own.
    ReservedName,
    /// 12: a choice between no effects.
    EmptyOneof,
    /// 13: a part of the language that is left out, with its word.
    LeftOut(Text),
    /// 14: a problem of another domain.
    OtherDomain,
    /// 15: a problem with no goal.
    GoalMissing,
    /// 16: a second goal.
    GoalTwice,
    /// 17: a goal of another kind than the command takes.
    WrongGoalKind,
    /// 18: a goal that is no chain.
    NotChain,
    /// 19: a quantifier over a temporal goal.
    QuantifiedGoal,
    /// 20: an action that the task has not.
    UnknownAction,
    /// 21: a number of another form or out of its range.
    BadNumber,
    /// 22: a plan of another kind than the command takes.
    WrongPlanKind,
    /// 23: a problem whose initial states all lie outside the domain's set of states.
    EmptyInit,
    /// 24: a weight of another form than a decimal number or a fraction.
    BadWeight,
    /// 25: weights with a sum above 1.
    MassOver,
}

impl FaultKind {
    // The number and the name of the kind.
    fn code_and_name(&self) -> (u8, &'static str)
        ensures { (result.0, result.1.now) ≡ code_and_name self.now }
    {
        match self {
            FaultKind::BadByte => (1, "BadByte"),
            FaultKind::StrayClose => (2, "StrayClose"),
            FaultKind::OpenAtEnd => (3, "OpenAtEnd"),
            FaultKind::TooDeep => (4, "TooDeep"),
            FaultKind::NoDefine => (5, "NoDefine"),
            FaultKind::BadForm => (6, "BadForm"),
            FaultKind::UnknownName => (7, "UnknownName"),
            FaultKind::DoubleName => (8, "DoubleName"),
            FaultKind::WrongArity => (9, "WrongArity"),
            FaultKind::TypeLoop => (10, "TypeLoop"),
            FaultKind::ReservedName => (11, "ReservedName"),
            FaultKind::EmptyOneof => (12, "EmptyOneof"),
            FaultKind::LeftOut(_) => (13, "LeftOut"),
            FaultKind::OtherDomain => (14, "OtherDomain"),
            FaultKind::GoalMissing => (15, "GoalMissing"),
            FaultKind::GoalTwice => (16, "GoalTwice"),
            FaultKind::WrongGoalKind => (17, "WrongGoalKind"),
            FaultKind::NotChain => (18, "NotChain"),
            FaultKind::QuantifiedGoal => (19, "QuantifiedGoal"),
            FaultKind::UnknownAction => (20, "UnknownAction"),
            FaultKind::BadNumber => (21, "BadNumber"),
            FaultKind::WrongPlanKind => (22, "WrongPlanKind"),
            FaultKind::EmptyInit => (23, "EmptyInit"),
            FaultKind::BadWeight => (24, "BadWeight"),
            FaultKind::MassOver => (25, "MassOver"),
        }
    }

    /// The number of the kind, from 1 to 25.
    pub fn code(&self) -> u8
        ensures { result ≡ code_of self.now }
    {
        self.code_and_name().0
    }

    /// The name of the kind, as it is written above.
    pub fn name(&self) -> &'static str
        ensures { result.now ≡ kind_name self.now }
    {
        self.code_and_name().1
    }

    /// The word that is left out, where the kind has one.
    pub fn word(&self) -> Option<&Text>
        ensures { option_copied result ≡ word_of self.now }
    {
        match self {
            FaultKind::LeftOut(word) => Some(word),
            _ => None,
        }
    }
}

/// A fault of an input: its kind, and the place that it is at.
#[derive(Debug, Drop)]
pub struct InputFault {
    pub kind: FaultKind,
    pub place: Place,
}

/// Why bytes were not read: their fault, or want of memory.
#[derive(Debug, Drop)]
pub enum ReadErr {
    Fault(InputFault),
    Memory,
}

impl From<AllocError> for ReadErr {
    ghost from_gives = { λ _ e. e ≡ Memory };

    fn from(_e: AllocError) -> ReadErr {
        ReadErr::Memory
    }
}

impl<T: Drop> From<AllocFailed<T>> for ReadErr {
    ghost from_gives = { λ _ e. e ≡ Memory };

    fn from(_e: AllocFailed<T>) -> ReadErr {
        ReadErr::Memory
    }
}
