//! Reading an explanation out of its file.

ghost use Rattle.command_base.specs.Answers.{no_memory};
ghost use Rattle.command_base.specs.Reading.{Holds, IsRefusedFile};
ghost use Rattle.command_base.specs.Shelves.{ReadsShelf};
ghost use Rattle.command_base.specs.Values.{refusal_of};
ghost use Rattle.draw_command.specs.Pictures.{IsFaultyExplanation};
ghost use Rattle.plan_page.specs.ExplanationValues.{explanation_value};
ghost use Rattle.plan_page.specs.Explanations.{TellsExplanation};
ghost use Rattle.plan_io.specs.Fetches.{FailedLast};
ghost use Rattle.std.specs.Prelude.{◌≡◌, ◌⊎◌, IfErr, IfOk};

use command_base::{Refusal, fetch, misread};
use plan_io::Shelf;
use plan_page::{Explanation, read_explanation};
use std::alloc::Global;

/// The explanation in a file.
pub(crate) fn read_explanation_file<S: Shelf>(
    alloc: Global,
    shelf: &mut S,
    name: &str,
) -> Result<Explanation, Refusal>
    ensures holds { IfOk result (λ explanation.
        Holds (S.held shelf.old) TellsExplanation name.now (explanation_value explanation)) }
    ensures refused { let failed = FailedLast S.fetched S.faults shelf.old shelf.new in
        IfErr result (λ refusal. (refusal_of refusal ≡ no_memory)
        ⊎ IsRefusedFile (S.held shelf.old) failed IsFaultyExplanation name.now (refusal_of refusal)) }
    ensures fetch { S.fetched shelf.old name.now shelf.new }
    ensures shelf { ReadsShelf S.held S.faults result shelf.old shelf.new }
{
    let bytes = fetch(alloc, shelf, name)?;
    match read_explanation(alloc, &bytes) {
        Ok(explanation) => Ok(explanation),
        Err(error) => Err(misread(alloc, name, error)?),
    }
}
