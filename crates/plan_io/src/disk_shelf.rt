//! The shelf over real files: the trusted edge.
ghost use Rattle.std.specs.Prelude.{◌≡◌, ◌≤◌, IfOk, IsErrOf, OnOk, vec_len};
ghost use Rattle.plan_io.specs.Counts.{raised};
ghost use Rattle.plan_io.specs.Held.{Untold};

use crate::shelves::{FetchErr, Shelf};
use std::alloc::Global;
use std::io::Read;
use std::marker::Model;
use std::rt::Files;
use std::{fs, io};

/// Real files, each under its path. It tells nothing of what they hold. Contracts see it as its
/// count of fetches that failed or found no memory, in 64 bits.
#[derive(Drop)]
pub struct DiskShelf<R> {
    files: R,
    faults: u64,
}

impl<R> Model for DiskShelf<R> {
    ghost use Rattle.std.specs.Prelude.{ℕ};

    ghost Value = { ℕ };

    ghost view = { λ s. s.faults };
}

impl<R: Files> DiskShelf<R> {
    /// A shelf over these files, as over a reference to the runtime, with no refusal yet.
    pub fn new(files: R) -> DiskShelf<R>
        ensures { result ≡ 0 }
    {
        DiskShelf { files, faults: 0 }
    }
}

impl<R: Files> Shelf for DiskShelf<R> {
    ghost held = { λ _ _. Untold };

    ghost faults = { λ s. s };

    /// Reads the file at this path, and never more than one byte past the limit. A directory, or a
    /// file that cannot be opened or read, is Failed.
    fn fetch(&mut self, alloc: Global, name: &str, limit: usize) -> Result<Vec<u8>, FetchErr>
        ensures within { IfOk result (λ file. vec_len file ≤ limit) }
        ensures failed { IsErrOf result FetchErr.Failed → self.new ≡ raised self.old }
        ensures no_memory { IsErrOf result FetchErr.Memory → self.new ≡ raised self.old }
        ensures given { OnOk result (self.new ≡ self.old) }
        ensures measured { IsErrOf result FetchErr.TooLong → self.new ≡ self.old }
        ensures later { self.old ≤ self.new }
    {
        match read_front(&self.files, alloc, name, limit) {
            Ok(bytes) if bytes.len() <= limit => Ok(bytes),
            Ok(_) => Err(FetchErr::TooLong),
            Err(error) => {
                self.faults = self.faults.saturating_add(1);
                Err(match error.kind() {
                    io::ErrorKind::OutOfMemory => FetchErr::Memory,
                    _ => FetchErr::Failed,
                })
            }
        }
    }
}

/// The bytes of the file at this path, cut off one byte after the limit.
fn read_front<R: Files>(files: &R, alloc: Global, path: &str, limit: usize) -> io::Result<Vec<u8>> {
    let file = fs::open(files, path)?;
    let mut bytes = Vec::new(alloc);
    file.take((limit as u64).saturating_add(1))
        .read_to_end(&mut bytes)?;
    Ok(bytes)
}
