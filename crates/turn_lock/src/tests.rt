ghost use Rattle.std.specs.Prelude.{◌≡◌, ◌++◌, [], ◌∷◌};
ghost use Rattle.turn_lock.specs.Passes.{IsPassOf};

use crate::worked::{Note, Tally, add_note, count_notes, made_and_closed};
use crate::{Pass, TurnLock};
use scan_model::Items;
use std::sync::Wait;
use std::test::Fail;
use std::thread::{Threads, join};

// Adds each count below `times` under the pass's number, and tells how often there was no memory.
fn add_all<Q: Wait>(
    rt: &Q,
    lock: &TurnLock<Tally>,
    mut pass: Pass<Tally>,
    times: u64,
) -> (Pass<Tally>, u64)
    requires { IsPassOf lock.now pass }
    ensures { IsPassOf lock.now result.0 }
{
    let mut refused = 0u64;
    for count in 0..times {
        if add_note(rt, lock, &mut pass, count).is_err() {
            refused = refused.saturating_add(1);
        }
    }
    (pass, refused)
}

fn both<R: Threads + Wait + Sync>(
    rt: &R,
    lock: &TurnLock<Tally>,
    first: Pass<Tally>,
    second: Pass<Tally>,
) -> ((Pass<Tally>, u64), (Pass<Tally>, u64))
    requires { IsPassOf lock.now first × IsPassOf lock.now second }
    ensures { IsPassOf lock.now result.0.0 × IsPassOf lock.now result.1.0 }
{
    join(
        rt,
        || add_all(rt, lock, first, 1000),
        || add_all(rt, lock, second, 1000),
    )
}

#[test]
fn two_threads_add_each_note_once(rt: HostRuntime) -> Result<(), Fail> {
    let mut row = Vec::with_capacity(rt.alloc(), 2)?;
    let tally = Tally {
        shelf: 3,
        notes: Vec::new(rt.alloc()),
    };
    let Ok((lock, passes)) = TurnLock::new(rt.alloc(), tally, 2) else {
        panic!(rt; "no memory")
    };
    let mut passes = passes.into_vec();
    let Some(second) = passes.pop() else {
        unreachable!()
    };
    let Some(first) = passes.pop() else {
        unreachable!()
    };
    assert!(rt; first.number() == 0 && second.number() == 1);
    let (one, other) = both(&rt, &lock, first, second);
    let (mut first, first_refused) = one;
    let (second, second_refused) = other;
    let seen = count_notes(&rt, &lock, &mut first);
    row.push_reserved(first);
    row.push_reserved(second);
    let Tally { shelf, notes } = lock.close(Items::of_vec(row));
    assert!(rt; first_refused == 0 && second_refused == 0);
    assert!(rt; seen == 2000 && notes.len() == 2000 && shelf == 3);
    let mut next = [0u64; 2];
    for note in &notes {
        assert!(rt; note.by < 2);
        let by = note.by as usize;
        assert!(rt; note.count == next[by] && next[by] < 1000);
        next[by] += 1;
    }
    assert!(rt; next == [1000, 1000]);
    Ok(())
}

#[test]
fn one_pass_closes_at_once(rt: HostRuntime) -> Result<(), Fail> {
    let mut notes = Vec::new(rt.alloc());
    notes.push(Note { by: 7, count: 9 })?;
    notes.push(Note { by: 0, count: 4 })?;
    let Ok(tally) = made_and_closed(rt.alloc(), Tally { shelf: 5, notes }, 1) else {
        panic!(rt; "no memory")
    };
    let Tally { shelf, notes } = tally;
    assert!(rt; shelf == 5 && notes.len() == 2);
    assert!(rt; notes[0].by == 7 && notes[0].count == 9);
    assert!(rt; notes[1].by == 0 && notes[1].count == 4);
    Ok(())
}
