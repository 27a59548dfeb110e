//! How a lock and its passes are made.
ghost use Rattle.std.specs.Prelude.{◌≡◌, ℕ, [], ◌∷◌, ◌<◌, ◌≤◌, ◌-◌, false, length, IfOk, IfErr, vec_capacity};
ghost use Rattle.turn_lock.specs.declared.view.Stage.TheVariants.{Idle};
ghost use Rattle.turn_lock.specs.Views.{start, view, resting, seen_of, fixed_of, marks_from};
ghost use Rattle.turn_lock.specs.Passes.{pass_count, first_log, lock_fixed, Dealt, AreFirst};

use super::{LockSeat, LockTable, Pass, TurnLock};
use crate::Logged;
use crate::steps::{Draw, LoadTurn, ServeNext, SplitOff};
use crate::view::Beginning;
use atomic_table::Table;
use scan_model::Items;
use std::alloc::Global;
use std::snapshot::Snapshot;

// The first turn, which puts the first state in. It is the only seat's, so its ticket is served at once.
fn open<T: Logged>(shared: &LockTable<T>, seat: &mut LockSeat<T, T::Entry>, first: T)
    requires table { (seat.old.table_id ≡ shared.now.table_id) × (shared.now.table_id.words ≡ 2) }
    requires first { (shared.now.key.first.value ≡ first) × (0 < shared.now.key.passes) }
    requires start { seat.old.me ≡ (start (T.fixed first) (T.log first) shared.now.key.passes, []) }
    ensures table { seat.new.table_id ≡ seat.old.table_id }
    ensures ready { seat.new.me ≡ (view (marks_from 0 shared.now.key.passes (T.fixed first) (T.log first)) Idle false, []) }
{
    shared.fetch_add::<Draw>(seat, 0, 1);
    shared.load::<LoadTurn>(seat, 1);
    let vacated = shared.exchange(seat, 0, Some(first));
    let None = vacated else { unreachable!() };
    shared.fetch_add::<ServeNext>(seat, 1, 1);
}

// The pass of a seat that has this one number.
fn pass_of<T: Logged>(seat: LockSeat<T, T::Entry>, number: u32) -> Pass<T>
    requires { seat.me ≡ (resting number (fixed_of seat.me.0.marks) (seen_of seat.me.0.marks), []) }
    ensures { (result.seat ≡ seat) × (result.number ≡ number) }
{
    Pass { seat, number }
}

// One pass for each number, in order. The seat gives one number after another away and keeps the last.
fn deal<T: Logged>(
    shared: &LockTable<T>,
    mut seat: LockSeat<T, T::Entry>,
    mut row: Vec<Pass<T>>,
    passes: u32,
    like: &Snapshot<T>,
) -> Vec<Pass<T>>
    requires table { (seat.table_id ≡ shared.now.table_id) × (shared.now.table_id.words ≡ 2) }
    requires ready { seat.me ≡ (view (marks_from 0 passes (T.fixed like.now.value) (T.log like.now.value)) Idle false, []) }
    requires row { (row.items ≡ []) × (passes ≤ vec_capacity row) × (0 < passes) }
    ensures { (length result.items ≡ passes) × Dealt shared.now.table_id (T.fixed like.now.value) (T.log like.now.value) 0 result.items }
{
    let last = passes - 1;
    for number in 0..last {
        let part = shared.split_seat::<SplitOff>(&mut seat);
        row.push_reserved(pass_of(part, number));
    }
    row.push_reserved(pass_of(seat, last));
    row
}

impl<T: Logged> TurnLock<T> {
    /// The lock round `first`, and its passes with the numbers from 0 on, in order. Each has seen the log of `first`.
    ///
    /// `passes` is 1 to 64. `Err` is want of memory, and hands `first` back.
    pub fn new(alloc: Global, first: T, passes: u32) -> Result<(TurnLock<T>, Items<Pass<T>>), T>
        requires { (0 < passes) × (passes ≤ 64) }
        ensures lock { IfOk result (λ r. (pass_count r.0 ≡ passes) × (first_log T.log r.0 ≡ T.log first) × (lock_fixed T.fixed r.0 ≡ T.fixed first)) }
        ensures passes { IfOk result (λ r. (length r.1 ≡ passes) × AreFirst r.0 (T.log first) r.1) }
        ensures err { IfErr result (λ x. x ≡ first) }
    {
        let Ok(row) = Vec::with_capacity(alloc, passes as usize) else {
            return Err(first);
        };
        let like = Snapshot::of(&first);
        let about = Beginning {
            first: Snapshot::of(&first),
            passes,
        };
        let Ok((table, mut seat)) = Table::vacant(alloc, &[0, 0], 1, &about) else {
            return Err(first);
        };
        open(&table.shared, &mut seat, first);
        let row = deal(&table.shared, seat, row, passes, &like);
        Ok((TurnLock { table }, Items::of_vec(row)))
    }
}
