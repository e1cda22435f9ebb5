//! Reading a certificate out of its file.

ghost use Rattle.command_base.specs.Answers.{no_memory};
ghost use Rattle.command_base.specs.Reading.{IsRefusedFile};
ghost use Rattle.command_base.specs.Shelves.{ReadsShelf};
ghost use Rattle.command_base.specs.Values.{refusal_of};
ghost use Rattle.plan_certs.specs.Named.{IsCertificateOf, plain_certificate};
ghost use Rattle.plan_io.specs.Fetches.{FailedLast};
ghost use Rattle.refute_command.specs.RefuteCommand.{HoldsCertificate, IsFaultyCertificate};
ghost use Rattle.std.specs.Prelude.{◌≡◌, ◌⊎◌, IfErr, IfOk};
ghost use Rattle.task_core.specs.Tasks.{fluent_count, fluent_names};

use command_base::{Refusal, fetch, misread};
use plan_certs::{CertificateRead, read_cert};
use plan_io::Shelf;
use std::alloc::Global;
use task_core::Task;

/// The certificate over a task's fluents in a file.
pub(crate) fn read_certificate_file<S: Shelf>(
    alloc: Global,
    shelf: &mut S,
    name: &str,
    task: &Task,
) -> Result<CertificateRead, Refusal>
    ensures holds { IfOk result (λ read. HoldsCertificate (S.held shelf.old)
        (fluent_names task.now) name.now (plain_certificate read.certificate)) }
    ensures in_task { IfOk result (λ read.
        IsCertificateOf (fluent_count task.now) read.certificate) }
    ensures refused { let failed = FailedLast S.fetched S.faults shelf.old shelf.new in
        IfErr result (λ refusal. (refusal_of refusal ≡ no_memory)
        ⊎ IsRefusedFile (S.held shelf.old) failed
        (IsFaultyCertificate (fluent_names task.now)) name.now (refusal_of refusal)) }
    ensures fetch { S.fetched shelf.old name.now shelf.new }
    ensures shelf { ReadsShelf S.held S.faults result shelf.old shelf.new }
{
    let bytes = fetch(alloc, shelf, name)?;
    match read_cert(alloc, &bytes, task) {
        Ok(read) => Ok(read),
        Err(error) => Err(misread(alloc, name, error)?),
    }
}
