ghost use Rattle.std.specs.Prelude.{◌≡◌, ◌≤◌, None, OnOk, OnErr};
ghost use Rattle.std.specs.Io.KnownBytes.{Appends};
ghost use Rattle.file_source.specs.Sinks.{Rose, Adds, AddsPrefix, next_count};

use crate::{Failed, Sink};
use std::io;

/// A sink over a writer of the system: the trusted edge of what the scanner prints. It doesn't tell what it holds.
#[derive(Drop)]
pub struct OutSink<W: io::Write + Drop> {
    to: W,
    puts: u64,
    faults: u64,
}

impl<W: io::Write + Drop> OutSink<W> {
    pub fn new(to: W) -> OutSink<W>
        ensures fine { ⟦<OutSink<W> as Sink>⟧.faults result ≡ 0 }
        ensures unput { ⟦<OutSink<W> as Sink>⟧.puts result ≡ 0 }
        ensures over { result.to ≡ to }
    {
        OutSink {
            to,
            puts: 0,
            faults: 0,
        }
    }
}

impl<W: io::Write + Drop> Sink for OutSink<W> {
    ghost held = { λ _. None };

    ghost faults = { λ s. s.faults };

    ghost puts = { λ s. s.puts };

    /// Each error of a write, or of the flush after it, is a fault, and so is a write that takes nothing.
    fn put(&mut self, piece: &[u8]) -> Result<(), Failed>
        ensures added { OnOk result (Adds None piece.now None) }
        ensures fine { OnOk result (self.new.faults ≡ self.old.faults) }
        ensures begun { OnErr result (AddsPrefix None piece.now None) }
        ensures rose { OnErr result (Rose self.old.faults self.new.faults) }
        ensures kept { self.old.faults ≤ self.new.faults }
        ensures counted { self.new.puts ≡ next_count self.old.puts }
        ensures written { OnOk result (Appends (W.contents self.old.to) (W.contents self.new.to) piece.now) }
    {
        self.puts = self.puts.saturating_add(1);
        if self.to.write_all(piece).is_err() || self.to.flush().is_err() {
            self.faults = self.faults.saturating_add(1);
            return Err(Failed);
        }
        Ok(())
    }
}
