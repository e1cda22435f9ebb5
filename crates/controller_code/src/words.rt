//! Conditions as words.

ghost use Rattle.controller_code.specs.Words.{then_word, words_of};
ghost use Rattle.std.specs.List.{flat_map};
ghost use Rattle.std.specs.Prelude.{◌≡◌, ◌++◌, OnOk, map};

use std::alloc::AllocError;
use task_core::Cond;

const OPEN: usize = 0;

const CLOSE: usize = 1;

const TRUE: usize = 2;

pub(crate) const FALSE: usize = 3;

const NOT: usize = 4;

const LEAVE_IF_FALSE: usize = 5;

const LEAVE_IF_TRUE: usize = 6;

const FIRST_FLUENT: usize = 7;

/// Appends the words of a condition.
#[cycle(spelling)]
pub(crate) fn push_words(words: &mut Vec<usize>, cond: &Cond) -> Result<(), AllocError>
    ensures { OnOk result (words.new.items ≡ words.old.items ++ words_of cond.now) }
{
    match cond {
        Cond::Yes => words.push(TRUE)?,
        Cond::No => words.push(FALSE)?,
        Cond::Is(fluent) => words.push(FIRST_FLUENT + fluent.0 as usize)?,
        Cond::Not(part) => {
            push_words(words, part)?;
            words.push(NOT)?;
        }
        Cond::All(parts) => {
            words.push(OPEN)?;
            words.push(TRUE)?;
            push_parts(words, parts, LEAVE_IF_FALSE)?;
            words.push(CLOSE)?;
        }
        Cond::Any(parts) => {
            words.push(OPEN)?;
            words.push(FALSE)?;
            push_parts(words, parts, LEAVE_IF_TRUE)?;
            words.push(CLOSE)?;
        }
    }
    Ok(())
}

/// Appends the words of the parts of a condition, each with this word after it.
#[cycle(spelling)]
fn push_parts(words: &mut Vec<usize>, parts: &[Cond], word: usize) -> Result<(), AllocError>
    ensures { OnOk result (words.new.items ≡ words.old.items
        ++ flat_map (then_word word) (map words_of parts.now)) }
{
    for part in parts {
        push_words(words, part)?;
        words.push(word)?;
    }
    Ok(())
}
