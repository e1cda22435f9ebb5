//! Shelves: where files come from.
ghost use Rattle.std.specs.Prelude.{◌≡◌, ℕ, ◌≤◌, ◌⊎◌, List, IfOk, OnOk, IsErrOf, vec_len};
ghost use Rattle.plan_io.specs.Counts.{Rose};
ghost use Rattle.plan_io.specs.Held.{Held, Missing, Gives, MayExceed, Exceeds};

use std::alloc::Global;
use thiserror::Error;

/// Why a shelf gave no file.
#[derive(Clone, Copy, Debug, PartialEq, Eq, Error)]
pub enum FetchErr {
    /// The source failed, or there is no file of this name.
    #[error("the file cannot be read")]
    Failed,
    /// The file has more bytes than the limit.
    #[error("the file is too long")]
    TooLong,
    /// There is not enough memory for the file's bytes.
    #[error("out of memory")]
    Memory,
}

/// A source of files, each under a name.
///
/// Its contract speaks of three meanings. `held` is what the shelf tells of the file under a name:
/// its bytes, that there is none, or nothing at all. `faults` counts the times that the source
/// itself failed. A shelf that keeps the count in 64 bits leaves it at its last value; that the
/// count rose is therefore said also of a count that stands there. `fetched` says of two states of
/// the shelf that the second came of a fetch of the file under a name in the first: by it a caller
/// can say which files it fetched, in which order, and in which fetch the source failed. It holds
/// of any two states where a shelf says no more.
///
/// To those who write a shelf: count your refusals, and nothing else. A fetch that gives the file,
/// and one that finds it too long, leaves the count as it was; so does no fetch that tried again
/// after a failure.
pub trait Shelf {
    ghost held: { Self → List ℕ → Held };

    ghost faults: { Self → ℕ };

    ghost fetched: { Self → List ℕ → Self → Type 0 } = { λ _ _ _. Unit {0} };

    /// Gives the bytes of the file under `name`, if they are at most `limit` bytes.
    ///
    /// A name that is told as missing is by itself no cause for the count of faults to rise.
    fn fetch(&mut self, alloc: Global, name: &str, limit: usize) -> Result<Vec<u8>, FetchErr>
        // What comes is the file, within the limit.
        ensures bytes { IfOk result (λ file. Gives (held self.old name.now) file.items) }
        ensures within { IfOk result (λ file. vec_len file ≤ limit) }

        // When each refusal comes.
        ensures failed { IsErrOf result FetchErr.Failed
            → Rose (faults self.old) (faults self.new) ⊎ (held self.old name.now ≡ Missing) }
        ensures too_long { IsErrOf result FetchErr.TooLong
            → MayExceed limit (held self.old name.now) }

        // What a told file comes to, where the source does not fail and memory suffices.
        ensures missing { held self.old name.now ≡ Missing
            → IsErrOf result FetchErr.Failed ⊎ IsErrOf result FetchErr.Memory }
        ensures exceeding { Exceeds limit (held self.old name.now)
            → Rose (faults self.old) (faults self.new)
            ⊎ (IsErrOf result FetchErr.TooLong ⊎ IsErrOf result FetchErr.Memory) }

        // Nothing that was given or measured had a fault.
        ensures given { OnOk result (faults self.new ≡ faults self.old) }
        ensures measured { IsErrOf result FetchErr.TooLong → faults self.new ≡ faults self.old }

        // This was a fetch of that file. It changes nothing that is held, and the count never
        // falls.
        ensures fetch { fetched self.old name.now self.new }
        ensures kept { (file : List ℕ) → held self.new file ≡ held self.old file }
        ensures later { faults self.old ≤ faults self.new };
}
