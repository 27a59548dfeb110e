//! A pass's turn.
ghost use Rattle.std.specs.Prelude.{◌≡◌, ℕ, [], ◌∷◌};
ghost use Rattle.std.specs.Fn.{FnOnceTakesAtMut, FnOnceReturnsAtMut};
ghost use Rattle.turn_lock.specs.Logs.{Fits, Follows};
ghost use Rattle.turn_lock.specs.Views.{resting, number_of, fixed_of, seen_of};
ghost use Rattle.turn_lock.specs.Steps.{IsTurn};
ghost use Rattle.turn_lock.specs.Passes.{pass_lock, pass_fixed, lock_fixed, number, seen, IsPassOf, FitsPass};

use super::{LockSeat, LockTable, Pass, TurnLock};
use crate::Logged;
use crate::steps::{Draw, LoadTurn, ServeNext};
use std::sync::Wait;
use std::thread;

impl<T: Logged> Pass<T> {
    /// The pass's number, below the number of the lock's passes.
    pub fn number(&self) -> u32
        ensures { result ≡ number self.now }
    {
        self.number
    }
}

// Draws a ticket, waits until it is served, and takes the state.
fn enter<T: Logged, Q: Wait>(shared: &LockTable<T>, rt: &Q, seat: &mut LockSeat<T, T::Entry>) -> T
    requires table { (seat.old.table_id ≡ shared.now.table_id) × (shared.now.table_id.words ≡ 2) }
    requires rest { seat.old.me ≡ (resting (number_of seat.old.me.0.marks) (fixed_of seat.old.me.0.marks) (seen_of seat.old.me.0.marks), []) }
    ensures table { seat.new.table_id ≡ seat.old.table_id }
    ensures fits { Fits T.maker (number_of seat.old.me.0.marks) (seen_of seat.old.me.0.marks) (T.log result) }
    ensures fixed { T.fixed result ≡ fixed_of seat.old.me.0.marks }
    ensures turn { IsTurn T.log T.fixed T.maker (number_of seat.old.me.0.marks) (fixed_of seat.old.me.0.marks) (T.log result) seat.new.me }
{
    let ticket = shared.fetch_add::<Draw>(seat, 0, 1);
    for _ in rt.forever() {
        if shared.load::<LoadTurn>(seat, 1) == ticket {
            return shared.exchange(seat, 0, None).unwrap();
        }
        // The one that is served may need this processor to end its turn.
        thread::yield_now();
    }
    unreachable!()
}

// Puts the state back, and serves the next ticket.
fn leave<T: Logged>(shared: &LockTable<T>, seat: &mut LockSeat<T, T::Entry>, state: T)
    requires table { (seat.old.table_id ≡ shared.now.table_id) × (shared.now.table_id.words ≡ 2) }
    requires turn { IsTurn T.log T.fixed T.maker (number_of seat.old.me.0.marks) (fixed_of seat.old.me.0.marks) (seen_of seat.old.me.0.marks) seat.old.me }
    requires adds { Follows T.maker (number_of seat.old.me.0.marks) (seen_of seat.old.me.0.marks) (T.log state) }
    requires fixed { T.fixed state ≡ fixed_of seat.old.me.0.marks }
    ensures table { seat.new.table_id ≡ seat.old.table_id }
    ensures rest { seat.new.me ≡ (resting (number_of seat.old.me.0.marks) (fixed_of seat.old.me.0.marks) (T.log state), []) }
{
    let vacated = shared.exchange(seat, 0, Some(state));
    let None = vacated else { unreachable!() };
    shared.fetch_add::<ServeNext>(seat, 1, 1);
}

impl<T: Logged> TurnLock<T> {
    /// Waits for the pass's turn, and runs `step` once on the state, which nobody else has meanwhile.
    ///
    /// The state fits the pass: what the pass has seen begins its log, no later entry names the pass, and what is
    /// fixed is the lock's. On each such state `step` may be called; it adds at most one entry, which names the pass,
    /// and leaves what is fixed. Afterwards the pass has seen the log that `step` left.
    ///
    /// Nothing says when the turn comes. A step that waits for another turn of the same lock waits forever.
    pub fn with<Q: Wait, R, F: FnOnce(&mut T) -> R>(&self, rt: &Q, pass: &mut Pass<T>, step: F) -> R
        requires own { IsPassOf self.now pass.old }
        requires takes { (x : T) → FitsPass (T.log x) pass.old → T.fixed x ≡ lock_fixed T.fixed self.now → FnOnceTakesAtMut F.FnOnce step x }
        requires adds { (x y : T) (r : R) → FitsPass (T.log x) pass.old → T.fixed x ≡ lock_fixed T.fixed self.now → FnOnceReturnsAtMut F.FnOnce step x r y → Follows T.maker (number pass.old) (T.log x) (T.log y) × (T.fixed y ≡ T.fixed x) }
        ensures own { IsPassOf self.now pass.new × (number pass.new ≡ number pass.old) }
        ensures ran { (x y : T) × FitsPass (T.log x) pass.old × (T.fixed x ≡ lock_fixed T.fixed self.now) × FnOnceReturnsAtMut F.FnOnce step x result y × (seen pass.new ≡ T.log y) × (T.fixed y ≡ T.fixed x) }
    {
        let Pass { seat, .. } = pass;
        let mut state = enter(&self.table.shared, rt, seat);
        let result = step(&mut state);
        leave(&self.table.shared, seat, state);
        result
    }
}
