//! What is wrong with a command line.

ghost use Rattle.pulgazer_top.specs.Mistakes.{why_text};
ghost use Rattle.std.specs.Prelude.{◌≡◌};

/// Why a word is wrong.
#[derive(Clone, Copy)]
pub enum Why {
    NoSubcommand,
    UnknownSubcommand,
    UnknownOption,
    Twice,
    NoValue,
    NeedlessValue,
    /// The word is the name of an operand that is left out.
    Missing,
    OneTooMany,
    TwiceInput,
    BadClass,
    BadLanguage,
    BadNodes,
    NoCertificate,
    NotFair,
    OneForm,
    Alone,
}

/// A word, and what is wrong with it.
#[derive(Clone, Copy)]
pub struct Mistake<'a> {
    pub word: &'a str,
    pub why: Why,
}

impl Why {
    pub(crate) fn text(self) -> &'static str
        ensures { result.now ≡ why_text self }
    {
        match self {
            Why::NoSubcommand => "a subcommand is wanted",
            Why::UnknownSubcommand => "no subcommand",
            Why::UnknownOption => "no option of this subcommand",
            Why::Twice => "given twice",
            Why::NoValue => "a value is missing after it",
            Why::NeedlessValue => "it takes no value",
            Why::Missing => "missing",
            Why::OneTooMany => "one word too many",
            Why::TwiceInput => "standard input can be only one of the files",
            Why::BadClass => "none of weak, strong, cyclic, ctl and fair",
            Why::BadLanguage => "none of c, rust and python",
            Why::BadNodes => "no number from 1 to 16777216",
            Why::NoCertificate => "there are no certificates for ctl and fair",
            Why::NotFair => "why is not asked of it",
            Why::OneForm => "not together with --json",
            Why::Alone => "not together with --page or --explanation",
        }
    }
}
