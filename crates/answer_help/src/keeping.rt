//! A shelf that keeps the files that it gave.

ghost use Rattle.answer_help.specs.Keeping.{
  kept,
  kept_file,
  kept_files,
  AreToldAs,
  IsKept,
  IsKeptAfter,
  KeepsAfter,
  NamesNone,
  faults_by,
  held_by,
  kept_in,
};
ghost use Rattle.std.specs.Prelude.{◌≡◌, ◌⊎◌, ◌++◌, ◌∷◌, [], IfNone, IfOk, IfSome, List, string_bytes, ℕ};
ghost use Rattle.plan_io.specs.Held.{Gives, Held};

use plan_io::{FetchErr, Shelf};
use std::alloc::{AllocError, Global};

/// A file that was given: its name and its bytes.
#[derive(Drop)]
pub struct KeptFile {
    name: String,
    bytes: Vec<u8>,
}

impl KeptFile {
    /// A copy of the name and the bytes.
    fn copy_of(alloc: Global, name: &str, bytes: &[u8]) -> Result<KeptFile, AllocError>
        ensures { IfOk result (λ file. kept_file file ≡ kept name.now bytes.now) }
    {
        Ok(KeptFile {
            name: String::from_str(alloc, name)?,
            bytes: Vec::from_slice(alloc, bytes)?,
        })
    }
}

/// A shelf that keeps a copy of each file that it gave, where there is memory for it, so that what is
/// wrong in a file can be shown.
#[derive(Drop)]
pub struct KeepingShelf<S> {
    shelf: S,
    files: Vec<KeptFile>,
}

impl<S> KeepingShelf<S> {
    /// The shelf, of which nothing is kept yet.
    pub fn new(alloc: Global, shelf: S) -> KeepingShelf<S>
        ensures { kept_in result ≡ [] }
    {
        KeepingShelf {
            shelf,
            files: Vec::new(alloc),
        }
    }

    /// The bytes that are kept of the file of this name.
    pub fn bytes_of(&self, name: &str) -> Option<&[u8]>
        ensures given { IfSome result (λ bytes. (held : List ℕ → Held)
            → AreToldAs held (kept_in self.now) → Gives (held name.now) bytes.now) }
        ensures absent { IfNone result (NamesNone (kept_in self.now) name.now) }
    {
        kept_bytes(&self.files, name)
    }
}

impl<S: Shelf> Shelf for KeepingShelf<S> {
    ghost held = { held_by S.held };

    ghost faults = { faults_by S.faults };

    ghost fetched = { KeepsAfter S.held S.fetched };

    fn fetch(&mut self, alloc: Global, name: &str, limit: usize) -> Result<Vec<u8>, FetchErr> {
        let bytes = self.shelf.fetch(alloc, name, limit)?;
        keep(alloc, &mut self.files, name, &bytes);
        Ok(bytes)
    }
}

/// Keeps a copy of a file, where there is memory for it.
fn keep(alloc: Global, files: &mut Vec<KeptFile>, name: &str, bytes: &[u8])
    ensures { IsKept (kept_files files.old.items) name.now bytes.now (kept_files files.new.items) }
{
    if let Ok(file) = KeptFile::copy_of(alloc, name, bytes) {
        let _ = files.push(file);
    }
}

/// The bytes of the first of the files that has this name.
fn kept_bytes<'a>(files: &'a [KeptFile], name: &str) -> Option<&'a [u8]>
    ensures given { IfSome result (λ bytes. (held : List ℕ → Held)
        → AreToldAs held (kept_files files.now) → Gives (held name.now) bytes.now) }
    ensures absent { IfNone result (NamesNone (kept_files files.now) name.now) }
{
    for file in files {
        if file.name.as_str() == name {
            return Some(file.bytes.as_slice());
        }
    }
    None
}
