//! Answers: what a command shows, or a refusal; each with its exit status and its text.

ghost use Rattle.command_base.specs.Answers.{
  fault_line as fault_text,
  line_of,
  no_command,
  no_memory,
  status_of,
  status_of_refusal,
  stray_outcome,
  text_of,
};
ghost use Rattle.command_base.specs.Values.{bytes_of, limit_of, refusal_of, shown_of};
ghost use Rattle.plan_rules.specs.Texts.{line_feed};
ghost use Rattle.std.specs.Option.{option_copied, option_map_or};
ghost use Rattle.std.specs.Prelude.{◌≡◌, ◌++◌, [], IfOk, IsOk, OnOk, codes, decimal, string_bytes};

use itoa::Buffer;
use sexpr_text::{InputFault, Text as Word};
use std::alloc::{AllocError, Global};

/// The exit status where there is not enough memory.
pub const NO_MEMORY: u8 = 8;

/// The line about that.
pub const NO_MEMORY_LINE: &str = "no memory\n";

/// The exit status where the text of an answer can't be written whole.
pub const WRITE_FAULT: u8 = 7;

/// A text: one that is always the same, or one that was made.
#[derive(Drop)]
pub enum Text {
    Fixed(&'static str),
    Made(Vec<u8>),
}

impl Text {
    pub fn as_bytes(&self) -> &[u8]
        ensures { result.now ≡ bytes_of self.now }
    {
        match self {
            Text::Fixed(text) => text.as_bytes(),
            Text::Made(bytes) => bytes.as_slice(),
        }
    }
}

/// What a command shows on standard output, with its text.
#[derive(Drop)]
pub enum Shown {
    /// It says yes: a plan.
    Affirmed(Text),
    /// It says no: that there is no plan.
    Denied(Text),
}

impl Shown {
    /// The exit status.
    pub fn status(&self) -> u8
        ensures { result ≡ status_of (shown_of self.now) }
    {
        match self {
            Shown::Affirmed(_) => 0,
            Shown::Denied(_) => 1,
        }
    }

    pub fn as_bytes(&self) -> &[u8]
        ensures { result.now ≡ text_of (shown_of self.now) }
    {
        match self {
            Shown::Affirmed(text) => text.as_bytes(),
            Shown::Denied(text) => text.as_bytes(),
        }
    }
}

/// What must not be passed.
#[derive(Clone, Copy)]
pub enum Limit {
    /// The bytes of a file.
    File,
    /// Constants and objects.
    Objects,
    /// The expanded size of an action or of the goal.
    Size,
    /// Instances of actions, kept or not.
    Instances,
    /// Kept instances of actions.
    Actions,
    /// Outcomes of a kept instance.
    Outcomes,
    Fluents,
    /// Stages of a chain or an until-chain.
    Stages,
    /// Visits of a patrol goal.
    Patrol,
    /// Initial states that are followed.
    Initial,
    /// Configurations that are followed.
    Configurations,
}

impl Limit {
    pub fn name(self) -> &'static str
        ensures { result.now ≡ limit_of self }
    {
        match self {
            Limit::File => "file",
            Limit::Objects => "objects",
            Limit::Size => "size",
            Limit::Instances => "instances",
            Limit::Actions => "actions",
            Limit::Outcomes => "outcomes",
            Limit::Fluents => "fluents",
            Limit::Stages => "stages",
            Limit::Patrol => "patrol",
            Limit::Initial => "initial",
            Limit::Configurations => "configurations",
        }
    }
}

/// Why a command, or what is no command, is refused: one line on standard error.
#[derive(Drop)]
pub enum Refusal {
    /// The words are none of the commands.
    NoCommand,
    /// The text of the file of this name has this fault.
    TextFault(String, InputFault),
    /// This limit is passed.
    OverLimit(Limit),
    /// The file of this name can't be read.
    ReadFault(String),
    NoMemory,
    /// The table of diagram nodes is full: it may hold so many.
    Full(u32),
    /// The record's number at this step is none of the action's outcomes.
    StrayOutcome { step: u64, word: u32, outcomes: u32 },
    /// The plan's action at this step can't be executed.
    Unexecutable { step: u64 },
}

impl From<AllocError> for Refusal {
    ghost use Rattle.command_base.specs.declared.answers.Refusal.TheVariants.{NoMemory};

    ghost from_gives = { λ _ refusal. refusal ≡ NoMemory };

    fn from(_: AllocError) -> Refusal {
        Refusal::NoMemory
    }
}

impl Refusal {
    /// The exit status.
    pub fn status(&self) -> u8
        ensures { result ≡ status_of_refusal (refusal_of self.now) }
    {
        match self {
            Refusal::NoCommand => 2,
            Refusal::TextFault(..) => 3,
            Refusal::OverLimit(_) => 4,
            Refusal::ReadFault(_) => 6,
            Refusal::NoMemory => NO_MEMORY,
            Refusal::Full(_) => 5,
            Refusal::StrayOutcome { .. } | Refusal::Unexecutable { .. } => 9,
        }
    }

    /// The line, with its end.
    pub fn line(&self, alloc: Global) -> Result<Text, AllocError>
        ensures line { IfOk result (λ line. bytes_of line
            ≡ line_of (refusal_of self.now) ++ line_feed) }
        ensures no_command { refusal_of self.now ≡ no_command → IsOk result }
    {
        Ok(match self {
            Refusal::NoCommand => Text::Fixed("mbp: the words are none of the command forms\n"),
            Refusal::TextFault(file, fault) => Text::Made(fault_line(alloc, file, fault)?),
            Refusal::OverLimit(limit) => {
                let name = limit.name();
                Text::Made(format!(in alloc; "limit {name}\n")?.into_bytes())
            }
            Refusal::ReadFault(file) => {
                Text::Made(format!(in alloc; "read fault {file}\n")?.into_bytes())
            }
            Refusal::NoMemory => Text::Fixed(NO_MEMORY_LINE),
            Refusal::Full(nodes) => {
                Text::Made(format!(in alloc; "full {nodes}\n")?.into_bytes())
            }
            Refusal::StrayOutcome {
                step,
                word,
                outcomes,
            } => Text::Made(stray_line(alloc, *step, *word, *outcomes)?.into_bytes()),
            Refusal::Unexecutable { step } => {
                Text::Made(format!(in alloc; "unexecutable step {step}\n")?.into_bytes())
            }
        })
    }
}

/// The line about a record's number that is none of the action's outcomes, with its end.
fn stray_line(alloc: Global, step: u64, word: u32, outcomes: u32) -> Result<String, AllocError>
    ensures { IfOk result (λ line.
        string_bytes line ≡ line_of (stray_outcome step word outcomes) ++ line_feed) }
{
    format!(in alloc; "stray outcome step {step} word {word} outcomes {outcomes}\n")
}

/// The line of a fault, with its end: the file, the line and the column of its place, its number,
/// its name and, where its kind has one, its word.
fn fault_line(alloc: Global, file: &str, fault: &InputFault) -> Result<Vec<u8>, AllocError>
    ensures { IfOk result (λ line. line.items ≡ fault_text file.now fault.now ++ line_feed) }
{
    let mut line = Vec::from_slice(alloc, file.as_bytes())?;
    line.push(b':')?;
    push_number(&mut line, fault.place.line)?;
    line.push(b':')?;
    push_number(&mut line, fault.place.column)?;
    line.extend_from_slice(b": ")?;
    push_number(&mut line, u32::from(fault.kind.code()))?;
    line.push(b' ')?;
    line.extend_from_slice(fault.kind.name().as_bytes())?;
    push_word(&mut line, fault.kind.word())?;
    line.push(b'\n')?;
    Ok(line)
}

/// Appends a number in decimal digits.
fn push_number(line: &mut Vec<u8>, number: u32) -> Result<(), AllocError>
    ensures { OnOk result (line.new.items ≡ line.old.items ++ decimal number) }
{
    line.extend_from_slice(Buffer::new().format(number).as_bytes())
}

/// Appends a space and the word, where there is one.
fn push_word(line: &mut Vec<u8>, word: Option<&Word>) -> Result<(), AllocError>
    ensures { OnOk result (line.new.items ≡ line.old.items
        ++ option_map_or (λ w. codes " " ++ w) (option_copied word.entry) []) }
{
    if let Some(word) = word {
        line.push(b' ')?;
        line.extend_from_slice(word.as_bytes())?;
    }
    Ok(())
}
