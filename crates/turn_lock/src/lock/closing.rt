//! How a lock is closed.
ghost use Rattle.std.specs.Prelude.{◌≡◌, [], ◌<◌, false, length, map, All};
ghost use Rattle.turn_lock.specs.declared.view.Stage.TheVariants.{Idle};
ghost use Rattle.turn_lock.specs.Views.{view};
ghost use Rattle.turn_lock.specs.Passes.{pass_lock, pass_count, first_log, lock_fixed, mark_of, IsPassOf, FitsPass, GrownBy};

use super::{LockSeat, LockTable, Pass, TurnLock};
use crate::Logged;
use crate::steps::Gather;
use scan_model::Items;

// The seat that has what all the passes know.
fn gather<T: Logged>(shared: &LockTable<T>, mut passes: Vec<Pass<T>>) -> LockSeat<T, T::Entry>
    requires table { 0 < shared.now.table_id.words }
    requires passes { (0 < length passes.items) × All (λ p. pass_lock p ≡ shared.now.table_id) passes.items }
    ensures { (result.table_id ≡ shared.now.table_id) × (result.me ≡ (view (map mark_of passes.items) Idle false, [])) }
{
    let Some(last) = passes.pop() else {
        unreachable!()
    };
    let Pass { mut seat, .. } = last;
    while let Some(next) = passes.pop() {
        let Pass { seat: other, .. } = next;
        shared.join_seat::<Gather>(&mut seat, other);
    }
    seat
}

impl<T: Logged> TurnLock<T> {
    /// The state, for all the lock's passes, in any order.
    ///
    /// The state fits every pass: what each has seen begins its log, and has each entry that names the pass. The log
    /// begins with that of the first state, each later entry names one of the passes, and what is fixed is as it was.
    pub fn close(self, passes: Items<Pass<T>>) -> T
        requires all { length passes ≡ pass_count self }
        requires own { All (λ p. IsPassOf self p) passes }
        ensures fits { All (λ p. FitsPass (T.log result) p) passes }
        ensures grown { GrownBy T.maker passes (first_log T.log self) (T.log result) }
        ensures fixed { T.fixed result ≡ lock_fixed T.fixed self }
    {
        let TurnLock { table } = self;
        let seat = gather(&table.shared, passes.into_vec());
        let mut closed = table.close_with(seat);
        let state = closed.take(0).unwrap();
        closed.free();
        state
    }
}
