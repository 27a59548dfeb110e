ghost use Rattle.std.specs.Prelude.{◌≡◌, ◌≤◌, List, ℕ, Option, OnOk, OnErr};
ghost use Rattle.file_source.specs.Sinks.{Rose, Adds, AddsPrefix, next_count};

/// A sink took less than a whole piece, or failed.
#[derive(Clone, Copy, Debug, PartialEq, Eq)]
pub struct Failed;

/// Where text is written to, piece by piece.
pub trait Sink {
    /// The bytes that it holds, where it tells them.
    ghost held: { Self → Option (List ℕ) };

    /// How often it has failed. It never falls, and stands still at 2^64 - 1.
    ghost faults: { Self → ℕ };

    /// How many pieces were put to it, the failed ones too. It stands still at 2^64 - 1.
    ghost puts: { Self → ℕ };

    /// Adds the whole piece. Failed where the sink failed: it may then have added the piece's beginning.
    fn put(&mut self, piece: &[u8]) -> Result<(), Failed>
        ensures added { OnOk result (Adds (held self.old) piece.now (held self.new)) }
        ensures fine { OnOk result (faults self.new ≡ faults self.old) }
        ensures begun { OnErr result (AddsPrefix (held self.old) piece.now (held self.new)) }
        ensures rose { OnErr result (Rose (faults self.old) (faults self.new)) }
        ensures kept { faults self.old ≤ faults self.new }
        ensures counted { puts self.new ≡ next_count (puts self.old) };
}
