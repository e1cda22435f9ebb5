//! What is asked of a controller.

use command_base::PlanWords;
use controller_code::Language;

/// How a controller is shown.
#[derive(Clone, Copy, Debug, PartialEq, Eq)]
pub enum Form {
    /// As text.
    Text,
    /// As JSON.
    Json,
    /// A program in this language.
    Code(Language),
}

/// What is asked of a controller beside its plan: whether each rule asks for the precondition of its
/// action, and how it is shown.
#[derive(Clone, Copy, Debug, PartialEq, Eq)]
pub struct Shape {
    pub guarded: bool,
    pub form: Form,
}

/// A controller from a plan, as `mbp plan` is asked for one.
#[derive(Clone, Copy)]
pub struct ControlWords<'a> {
    pub plan: PlanWords<'a>,
    pub shape: Shape,
}

/// A controller whose actions may be tried again, for the domain and the problem in the files of these
/// names, found in a table for so many nodes.
#[derive(Clone, Copy)]
pub struct FairWords<'a> {
    pub domain: &'a str,
    pub problem: &'a str,
    pub nodes: u32,
    pub shape: Shape,
}

/// Which controller is wanted.
#[derive(Clone, Copy)]
pub enum ControlRequest<'a> {
    /// One from a plan.
    Plan(ControlWords<'a>),
    /// One whose actions may be tried again.
    Fair(FairWords<'a>),
}
