//! Fetching the files of a command.

ghost use Rattle.command_base.specs.Answers.{no_memory};
ghost use Rattle.command_base.specs.Reading.{IsFile, IsTooLong, IsUnreadable};
ghost use Rattle.command_base.specs.Shelves.{ReadsShelf};
ghost use Rattle.command_base.specs.Values.{refusal_of};
ghost use Rattle.plan_io.specs.Fetches.{FailedLast};
ghost use Rattle.std.specs.Prelude.{◌≡◌, ◌⊎◌, IfErr, IfOk};

use crate::answers::{Limit, Refusal};
use plan_io::{FetchErr, Shelf};
use sexpr_text::MAX_BYTES;
use std::alloc::Global;

/// The bytes of a file, of which there are at most `MAX_BYTES`.
pub fn fetch<S: Shelf>(alloc: Global, shelf: &mut S, name: &str) -> Result<Vec<u8>, Refusal>
    ensures file { IfOk result (λ file. IsFile (S.held shelf.old) name.now file.items) }
    ensures refused { let failed = FailedLast S.fetched S.faults shelf.old shelf.new in
        IfErr result (λ refusal. (refusal_of refusal ≡ no_memory)
        ⊎ IsUnreadable (S.held shelf.old) failed name.now (refusal_of refusal)
        ⊎ IsTooLong (S.held shelf.old) name.now (refusal_of refusal)) }
    ensures fetch { S.fetched shelf.old name.now shelf.new }
    ensures shelf { ReadsShelf S.held S.faults result shelf.old shelf.new }
{
    match shelf.fetch(alloc, name, MAX_BYTES) {
        Ok(bytes) => Ok(bytes),
        Err(FetchErr::Failed) => Err(Refusal::ReadFault(String::from_str(alloc, name)?)),
        Err(FetchErr::TooLong) => Err(Refusal::OverLimit(Limit::File)),
        Err(FetchErr::Memory) => Err(Refusal::NoMemory),
    }
}
