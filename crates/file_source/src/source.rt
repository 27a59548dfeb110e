ghost use Rattle.std.specs.Prelude.{◌≡◌, [], ◌∷◌, ◌++◌, List, ℕ, IfOk, OnOk, OnErr};
ghost use Rattle.scan_model.specs.declared.Outcome.{Outcome};
ghost use Rattle.file_source.specs.Givens.{IsGiven};

use scan_model::{NoMemory, Outcome, PathText};
use std::alloc::Global;

/// Files by their paths. Asking for a path and reading it are two steps, so that a path can be asked for under a lock
/// and read without it.
pub trait Source: Send {
    /// The right to read one path once.
    type Opener: Send + Drop;

    /// What one read gave.
    type Given: Send + Sync + Drop;

    /// The paths that it was asked for, in order.
    ghost asked: { Self → List (List ℕ) };

    /// A number that no ask changes, and by which what it gives can be told from what other sources give.
    ghost origin: { Self → ℕ };

    ghost opener_path: { Self.Opener → List ℕ };

    ghost opener_origin: { Self.Opener → ℕ };

    ghost given_path: { Self.Given → List ℕ };

    ghost given_origin: { Self.Given → ℕ };

    ghost given_outcome: { Self.Given → Outcome };

    /// The file's bytes, where it is Present.
    ghost given_bytes: { Self.Given → List ℕ };

    /// How many calls of the read failed.
    ghost given_faults: { Self.Given → ℕ };

    /// How many bytes came.
    ghost given_came: { Self.Given → ℕ };

    /// Asks for a path. `Err` is want of memory, and the path then counts as not asked.
    fn ask(&mut self, alloc: Global, path: &PathText) -> Result<Self::Opener, NoMemory>
        ensures ok { OnOk result (asked self.new ≡ asked self.old ++ path.now ∷ []) }
        ensures opener { IfOk result (λ opener. opener_path opener ≡ path.now) }
        ensures opened_here { IfOk result (λ opener. opener_origin opener ≡ origin self.old) }
        ensures same_origin { origin self.new ≡ origin self.old }
        ensures err { OnErr result (asked self.new ≡ asked self.old) };

    /// Reads the opener's path to its end, or to a failure, or past the most bytes that a file may have.
    fn read(alloc: Global, opener: Self::Opener) -> Self::Given
        ensures path { given_path result ≡ opener_path opener }
        ensures same_origin { given_origin result ≡ opener_origin opener }
        ensures caused { IsGiven (given_outcome result) (given_bytes result) (given_faults result) (given_came result) };

    /// It takes no memory.
    fn outcome(given: &Self::Given) -> Outcome
        ensures value { result ≡ given_outcome given.now }
        ensures caused { IsGiven (given_outcome given.now) (given_bytes given.now) (given_faults given.now) (given_came given.now) };

    /// The file's bytes where the outcome is Present, and none otherwise. It takes no memory.
    fn bytes(given: &Self::Given) -> &[u8]
        ensures value { result.now ≡ given_bytes given.now };
}
