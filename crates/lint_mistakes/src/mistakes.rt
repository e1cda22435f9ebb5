//! The kinds of mistakes.

use pddl_ast::TypeId;
use sexpr_text::Span;

/// What is likely a mistake: where it stands, and of which kind it is.
#[derive(Clone, Copy, Debug)]
pub struct Mistake {
    pub span: Span,
    pub kind: MistakeKind,
}

/// The kinds.
#[derive(Clone, Copy, Debug)]
pub enum MistakeKind {
    /// The object, or the variable, is of the first type, and the predicate takes one of the second.
    WrongType(TypeId, TypeId),
    /// No action, invariant or goal names the predicate.
    NeverUsed,
    /// Another outcome of the same choice is written with the same words.
    Copied,
    /// The precondition says already what the effect makes so.
    Idle,
    /// The predicate is needed, and none of its atoms is ever true.
    NeverTrue,
    /// The parameters with these spans may be one object, and then another effect undoes this deletion.
    MayBeEqual(Span, Span),
}
