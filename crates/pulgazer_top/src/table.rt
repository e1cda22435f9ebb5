//! The table of subcommands: parsing, help and the nearest word are made from it.

ghost use Rattle.pulgazer_top.specs.Table.{
  class_words,
  languages,
  operand_names,
  option_about,
  option_in,
  option_word,
  options_of,
  subcommand_about,
  subcommand_in,
  subcommand_word,
  subcommands,
  value_name,
};
ghost use Rattle.std.specs.Prelude.{◌≡◌, map};

/// What the program can be asked to do.
#[derive(Clone, Copy)]
pub enum Subcommand {
    Control,
    Check,
    Explain,
    Why,
    Lint,
    Trace,
    Draw,
}

/// An option of a subcommand.
#[derive(Clone, Copy)]
pub enum CommandOption {
    Nodes,
    Cert,
    Guarded,
    Json,
    Code,
    Explanation,
    Page,
    Rules,
}

/// The subcommands, in the order in which the help lists them.
pub(crate) fn all_subcommands() -> &'static [Subcommand]
    ensures { result.now ≡ subcommands }
{
    &[
        Subcommand::Control,
        Subcommand::Check,
        Subcommand::Explain,
        Subcommand::Why,
        Subcommand::Lint,
        Subcommand::Trace,
        Subcommand::Draw,
    ]
}

/// The words by which a plan may be judged.
pub(crate) fn class_names() -> &'static [&'static str]
    ensures { map (λ name. name.now) result.now ≡ class_words }
{
    &["weak", "strong", "cyclic", "ctl", "fair"]
}

/// The languages of programs.
pub(crate) fn language_names() -> &'static [&'static str]
    ensures { map (λ name. name.now) result.now ≡ languages }
{
    &["c", "rust", "python"]
}

impl Subcommand {
    pub(crate) fn word(self) -> &'static str
        ensures { result.now ≡ subcommand_word self }
    {
        match self {
            Subcommand::Control => "control",
            Subcommand::Check => "check",
            Subcommand::Explain => "explain",
            Subcommand::Why => "why",
            Subcommand::Lint => "lint",
            Subcommand::Trace => "trace",
            Subcommand::Draw => "draw",
        }
    }

    pub(crate) fn about(self) -> &'static str
        ensures { result.now ≡ subcommand_about self }
    {
        match self {
            Subcommand::Control => "print a controller: a plan for the reachable states alone",
            Subcommand::Check => "judge a plan: yes, or no with a reason",
            Subcommand::Explain => "judge a plan, and show a run for the verdict",
            Subcommand::Why => "say why there is no plan",
            Subcommand::Lint => "list likely mistakes in a domain and a problem",
            Subcommand::Trace => "show a recorded run, step by step",
            Subcommand::Draw => "draw a plan as a graph in the DOT language, or as a page",
        }
    }

    /// The names of the operands, in their order.
    pub(crate) fn operands(self) -> &'static [&'static str]
        ensures { map (λ name. name.now) result.now ≡ operand_names self }
    {
        match self {
            Subcommand::Control => &["CLASS", "DOMAIN", "PROBLEM"],
            Subcommand::Check => &["CLASS", "DOMAIN", "PROBLEM", "PLAN"],
            Subcommand::Explain => &["CLASS", "DOMAIN", "PROBLEM", "PLAN"],
            Subcommand::Why => &["CLASS", "DOMAIN", "PROBLEM"],
            Subcommand::Lint => &["DOMAIN", "PROBLEM"],
            Subcommand::Trace => &["DOMAIN", "PROBLEM", "PLAN", "RECORD"],
            Subcommand::Draw => &["DOMAIN", "PROBLEM", "PLAN"],
        }
    }

    pub(crate) fn options(self) -> &'static [CommandOption]
        ensures { result.now ≡ options_of self }
    {
        match self {
            Subcommand::Control => &[
                CommandOption::Nodes,
                CommandOption::Cert,
                CommandOption::Guarded,
                CommandOption::Json,
                CommandOption::Code,
            ],
            Subcommand::Check => &[],
            Subcommand::Explain => &[CommandOption::Json],
            Subcommand::Why => &[CommandOption::Nodes],
            Subcommand::Lint => &[CommandOption::Json],
            Subcommand::Trace => &[],
            Subcommand::Draw => &[
                CommandOption::Explanation,
                CommandOption::Page,
                CommandOption::Rules,
            ],
        }
    }
}

impl CommandOption {
    pub(crate) fn word(self) -> &'static str
        ensures { result.now ≡ option_word self }
    {
        match self {
            CommandOption::Nodes => "--nodes",
            CommandOption::Cert => "--cert",
            CommandOption::Guarded => "--guarded",
            CommandOption::Json => "--json",
            CommandOption::Code => "--code",
            CommandOption::Explanation => "--explanation",
            CommandOption::Page => "--page",
            CommandOption::Rules => "--rules",
        }
    }

    /// The name of the option's value; empty where it takes none.
    pub(crate) fn value_name(self) -> &'static str
        ensures { result.now ≡ value_name self }
    {
        match self {
            CommandOption::Nodes => "N",
            CommandOption::Cert => "",
            CommandOption::Guarded => "",
            CommandOption::Json => "",
            CommandOption::Code => "LANGUAGE",
            CommandOption::Explanation => "FILE",
            CommandOption::Page => "",
            CommandOption::Rules => "",
        }
    }

    pub(crate) fn about(self) -> &'static str
        ensures { result.now ≡ option_about self }
    {
        match self {
            CommandOption::Nodes => {
                "the most nodes of the decision diagrams, 1 to 16777216 (1048576 without the option)"
            }
            CommandOption::Cert => {
                "where there is no plan, print a certificate (not for ctl and fair)"
            }
            CommandOption::Guarded => "put the precondition of its action into each rule",
            CommandOption::Json => "print a JSON document",
            CommandOption::Code => "print a program in this language: c, rust or python",
            CommandOption::Explanation => "show the run that explain --json printed into this file",
            CommandOption::Page => "print a page to step through the plan in a browser",
            CommandOption::Rules => "draw a node for each rule in place of one for each state",
        }
    }
}

/// The subcommand of this name.
pub(crate) fn subcommand_named(subs: &[Subcommand], word: &str) -> Option<Subcommand>
    ensures { result ≡ subcommand_in subs.now word.now }
{
    let [sub, rest @ ..] = subs else {
        return None;
    };
    if word == sub.word() {
        return Some(*sub);
    }
    subcommand_named(rest, word)
}

/// The option of this name among some.
pub(crate) fn option_named(options: &[CommandOption], word: &str) -> Option<CommandOption>
    ensures { result ≡ option_in options.now word.now }
{
    let [option, rest @ ..] = options else {
        return None;
    };
    if word == option.word() {
        return Some(*option);
    }
    option_named(rest, word)
}
