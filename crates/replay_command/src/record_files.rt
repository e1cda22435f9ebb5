//! Reading a record out of its file.

ghost use Rattle.command_base.specs.Answers.{no_memory};
ghost use Rattle.command_base.specs.Reading.{Holds, IsRefusedFile};
ghost use Rattle.command_base.specs.Shelves.{ReadsShelf};
ghost use Rattle.command_base.specs.Values.{refusal_of};
ghost use Rattle.plan_io.specs.Fetches.{FailedLast};
ghost use Rattle.replay_command.specs.ReplayCommand.{IsFaultyRecord};
ghost use Rattle.run_replay.specs.Records.{SpellsRecord, record_value};
ghost use Rattle.std.specs.Prelude.{◌≡◌, ◌⊎◌, IfErr, IfOk};

use command_base::{Refusal, fetch, misread};
use plan_io::Shelf;
use run_replay::{Recorded, read_words};
use std::alloc::Global;

/// The record in a file.
pub fn read_record_file<S: Shelf>(
    alloc: Global,
    shelf: &mut S,
    name: &str,
) -> Result<Recorded, Refusal>
    ensures holds { IfOk result
        (λ r. Holds (S.held shelf.old) SpellsRecord name.now (record_value r)) }
    ensures refused { let failed = FailedLast S.fetched S.faults shelf.old shelf.new in
        IfErr result (λ refusal. (refusal_of refusal ≡ no_memory)
        ⊎ IsRefusedFile (S.held shelf.old) failed IsFaultyRecord name.now (refusal_of refusal)) }
    ensures fetch { S.fetched shelf.old name.now shelf.new }
    ensures shelf { ReadsShelf S.held S.faults result shelf.old shelf.new }
{
    let bytes = fetch(alloc, shelf, name)?;
    match read_words(alloc, &bytes) {
        Ok(recorded) => Ok(recorded),
        Err(error) => Err(misread(alloc, name, error)?),
    }
}
