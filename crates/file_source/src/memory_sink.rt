ghost use Rattle.std.specs.Prelude.{◌≡◌, ◌≤◌, ◌<◌, ◌+◌, ◌-◌, ◌++◌, [], Some, IfOk, OnOk, OnErr, is_err, min, take, length, vec_len};
ghost use Rattle.std.specs.Vec.{vec_capacity};
ghost use Rattle.file_source.specs.Sinks.{Rose, Adds, AddsPrefix, next_count, is_listed, is_refused, added_len};

use crate::{Failed, Sink};
use scan_model::{Items, NoMemory};
use std::alloc::Global;

/// A sink of limited room in memory, some of whose puts fail.
#[derive(Drop)]
pub struct MemorySink {
    bytes: Vec<u8>,
    room: usize,
    failing: Items<u32>,
    puts: u64,
    faults: u64,
    ghost within: { vec_len bytes ≤ room },
    ghost reserved: { room ≤ vec_capacity bytes },
}

impl MemorySink {
    /// A sink with room for so many bytes, which it takes at once: a put takes no memory.
    ///
    /// A put fails exactly where its number, from 1, is in `failing`, or where its whole piece doesn't fit in the room
    /// left. A listed put adds half of its piece, rounded down, or as much of that half as fits. Another failing put
    /// adds as much of its piece as fits.
    pub fn new(alloc: Global, room: u32, failing: Items<u32>) -> Result<MemorySink, NoMemory>
        ensures empty { IfOk result (λ s. ⟦<MemorySink as Sink>⟧.held s ≡ Some []) }
        ensures fine { IfOk result (λ s. ⟦<MemorySink as Sink>⟧.faults s ≡ 0) }
        ensures unput { IfOk result (λ s. ⟦<MemorySink as Sink>⟧.puts s ≡ 0) }
        ensures script { IfOk result (λ s. (s.room ≡ room) × (s.failing ≡ failing)) }
    {
        let room = room as usize;
        Ok(MemorySink {
            bytes: Vec::with_capacity(alloc, room)?,
            room,
            failing,
            puts: 0,
            faults: 0,
        })
    }

    /// What it holds.
    pub fn bytes(&self) -> &[u8]
        ensures { ⟦<MemorySink as Sink>⟧.held self.now ≡ Some result.now }
    {
        self.bytes.as_slice()
    }
}

// Whether the put of this number, from 1, is to fail.
fn is_failing(failing: &[u32], number: u64) -> bool
    ensures { result ≡ is_listed failing.now number }
{
    failing.iter().any(|listed| u64::from(*listed) == number)
}

// How many bytes of a piece are added.
fn added(piece_len: usize, room_left: usize, is_listed: bool) -> usize
    ensures value { result ≡ added_len piece_len room_left is_listed }
    ensures within { (result ≤ piece_len) × (result ≤ room_left) }
{
    let wanted = if is_listed { piece_len / 2 } else { piece_len };
    wanted.min(room_left)
}

impl Sink for MemorySink {
    ghost held = { λ s. Some s.bytes.items };

    ghost faults = { λ s. s.faults };

    ghost puts = { λ s. s.puts };

    fn put(&mut self, piece: &[u8]) -> Result<(), Failed>
        ensures added { OnOk result (Adds (Some self.old.bytes.items) piece.now (Some self.new.bytes.items)) }
        ensures fine { OnOk result (self.new.faults ≡ self.old.faults) }
        ensures begun { OnErr result (AddsPrefix (Some self.old.bytes.items) piece.now (Some self.new.bytes.items)) }
        ensures rose { OnErr result (Rose self.old.faults self.new.faults) }
        ensures kept { self.old.faults ≤ self.new.faults }
        ensures fails { let listed = is_listed self.old.failing (next_count self.old.puts) in
            is_err result ≡ is_refused (length piece.now) (self.old.room - vec_len self.old.bytes) listed }
        ensures holds { let listed = is_listed self.old.failing (next_count self.old.puts) in
            let n = added_len (length piece.now) (self.old.room - vec_len self.old.bytes) listed in
            self.new.bytes.items ≡ self.old.bytes.items ++ take n piece.now }
        ensures counted { self.new.puts ≡ next_count self.old.puts }
        ensures one_fault { OnErr result (self.new.faults ≡ next_count self.old.faults) }
        ensures same_script { (self.new.room ≡ self.old.room) × (self.new.failing ≡ self.old.failing) }
    {
        self.puts = self.puts.saturating_add(1);
        let listed = is_failing(self.failing.as_slice(), self.puts);
        let room_left = self.room - self.bytes.len();
        let n = added(piece.len(), room_left, listed);
        self.bytes.extend_from_slice(&piece[..n]).unwrap();
        if listed || room_left < piece.len() {
            self.faults = self.faults.saturating_add(1);
            return Err(Failed);
        }
        Ok(())
    }
}
