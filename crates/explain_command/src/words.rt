//! What is asked of a plan.

ghost use Rattle.explain_command.specs.Words.{is_document as is_shown_as_document};
ghost use Rattle.std.specs.Prelude.{◌≡◌};

use command_base::CheckWords;

/// What is shown of a verdict.
#[derive(Clone, Copy)]
pub enum ShownAs {
    /// Its line alone.
    Verdict,
    /// A run that shows it, below its line.
    Run,
    /// A JSON document of both.
    Document,
}

/// What is asked: the verdict on a plan, by the goal as it is written, or by the one that stands in its
/// place where actions may be tried again; and what is shown of it.
#[derive(Clone, Copy)]
pub struct ExplainWords<'a> {
    pub check: CheckWords<'a>,
    pub fair: bool,
    pub shown: ShownAs,
}

pub(crate) fn is_document(shown: ShownAs) -> bool
    ensures { result ≡ is_shown_as_document shown }
{
    match shown {
        ShownAs::Verdict => false,
        ShownAs::Run => false,
        ShownAs::Document => true,
    }
}
