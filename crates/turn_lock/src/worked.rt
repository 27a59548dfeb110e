//! A caller of the lock, worked out: threads that add notes to one tally. No crate calls it.
//!
//! It shows that a caller can meet what `with` asks, and what it then knows; the tests run it.
ghost use Rattle.std.specs.Prelude.{◌≡◌, ◌++◌, List, [], ◌∷◌, ◌<◌, ◌≤◌, length, OnOk, OnErr, IfOk, IfErr};
ghost use Rattle.turn_lock.specs.Logs.{StartsWith};
ghost use Rattle.turn_lock.specs.Passes.{IsPassOf, number, seen};
ghost use Rattle.turn_lock.specs.declared.worked.Note.{Note};

use crate::{Logged, Pass, TurnLock};
use std::alloc::{AllocError, Global};
use std::sync::Wait;

#[derive(Drop)]
pub(crate) struct Note {
    pub by: u32,
    pub count: u64,
}

/// Notes on one shelf, where they stay.
#[derive(Drop)]
pub(crate) struct Tally {
    pub shelf: u64,
    pub notes: Vec<Note>,
}

impl Logged for Tally {
    type Entry = Note;

    ghost log = { λ s. s.notes.items };

    ghost maker = { λ e. e.by };

    ghost fixed = { λ s. s.shelf ∷ [] };
}

impl Tally {
    fn add(&mut self, by: u32, count: u64) -> Result<(), AllocError>
        ensures ok { OnOk result (self.new.notes.items ≡ self.old.notes.items ++ record { by = by; count = count } ∷ []) }
        ensures err { OnErr result (self.new.notes.items ≡ self.old.notes.items) }
        ensures shelf { self.new.shelf ≡ self.old.shelf }
    {
        self.notes.push(Note { by, count })?;
        Ok(())
    }
}

/// Adds a note under the pass's number. At `Err`, which is want of memory, there is none.
pub(crate) fn add_note<Q: Wait>(
    rt: &Q,
    lock: &TurnLock<Tally>,
    pass: &mut Pass<Tally>,
    count: u64,
) -> Result<(), AllocError>
    requires { IsPassOf lock.now pass.old }
    ensures own { IsPassOf lock.now pass.new × (number pass.new ≡ number pass.old) }
    ensures ok { OnOk result ((before : List Note) × StartsWith before (seen pass.old) × (seen pass.new ≡ before ++ record { by = number pass.old; count = count } ∷ [])) }
    ensures err { OnErr result (StartsWith (seen pass.new) (seen pass.old)) }
{
    let by = pass.number();
    lock.with(rt, pass, move |tally: &mut Tally| tally.add(by, count))
}

/// How many notes there are now. The log stays as it is, and the pass has seen all of it.
pub(crate) fn count_notes<Q: Wait>(rt: &Q, lock: &TurnLock<Tally>, pass: &mut Pass<Tally>) -> usize
    requires { IsPassOf lock.now pass.old }
    ensures own { IsPassOf lock.now pass.new × (number pass.new ≡ number pass.old) }
    ensures seen { StartsWith (seen pass.new) (seen pass.old) × (result ≡ length (seen pass.new)) }
{
    lock.with(
        rt,
        pass,
        |tally: &mut Tally| -> usize
            ensures { (result ≡ length tally.old.notes.items) × (tally.new ≡ tally.old) }
        { tally.notes.len() },
    )
}

/// A lock that no pass used, closed again: the state comes back with its log and what is fixed of it.
pub(crate) fn made_and_closed<T: Logged>(alloc: Global, first: T, passes: u32) -> Result<T, T>
    requires { (0 < passes) × (passes ≤ 64) }
    ensures ok { IfOk result (λ t. (T.log t ≡ T.log first) × (T.fixed t ≡ T.fixed first)) }
    ensures err { IfErr result (λ t. t ≡ first) }
{
    match TurnLock::new(alloc, first, passes) {
        Ok((lock, passes)) => Ok(lock.close(passes)),
        Err(first) => Err(first),
    }
}
