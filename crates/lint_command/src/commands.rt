//! From what is asked to the answer.

ghost use Rattle.command_base.specs.Answers.{no_memory, refused};
ghost use Rattle.command_base.specs.Fetching.{FetchesBoth};
ghost use Rattle.command_base.specs.Shelves.{KeepsShelf};
ghost use Rattle.command_base.specs.Values.{answer_of};
ghost use Rattle.lint_command.specs.Mistakes.{IsMistakesAnswer};
ghost use Rattle.lint_command.specs.Values.{mistakes_words_of};
ghost use Rattle.plan_io.specs.Fetches.{FailedLast, FetchesNothing};
ghost use Rattle.std.specs.Prelude.{◌≡◌, ◌⊎◌};

use crate::found::shown;
use crate::words::MistakesWords;
use command_base::{Refusal, Shown, read_texts};
use plan_io::Shelf;
use std::alloc::Global;

/// What in two files is likely a mistake: a line for each with its place, or an object of a JSON document.
/// The answer is yes where nothing is found.
pub fn mistakes_in_files<S: Shelf>(
    alloc: Global,
    shelf: &mut S,
    asked: &MistakesWords<'_>,
) -> Result<Shown, Refusal>
    ensures answer { let failed = FailedLast S.fetched S.faults shelf.old shelf.new in
        (answer_of result ≡ refused no_memory)
        ⊎ IsMistakesAnswer (S.held shelf.old) failed (mistakes_words_of asked.now)
        (answer_of result) }
    ensures fetches { FetchesBoth (S.held shelf.old) S.fetched asked.now.names.domain.now
        asked.now.names.problem.now FetchesNothing shelf.old shelf.new }
    ensures shelf { KeepsShelf S.held S.faults (answer_of result) shelf.old shelf.new }
{
    let read = read_texts(alloc, shelf, asked.names.domain, asked.names.problem)?;
    shown(alloc, asked, &read)
}
