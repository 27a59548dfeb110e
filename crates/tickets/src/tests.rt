ghost use Rattle.std.specs.Prelude.{◌≡◌, ◌≤◌, []};
ghost use Rattle.tickets.specs.Seats.{IsSeatOf, drawn_by};

use crate::{TicketSeat, Tickets};
use scan_model::Items;
use std::alloc::Global;
use std::test::Fail;
use std::thread::{Threads, join};

// Draws so often, and keeps the numbers as far as there is memory.
fn draw_all(
    alloc: Global,
    tickets: &Tickets,
    mut seat: TicketSeat,
    times: usize,
) -> (TicketSeat, Vec<u64>)
    requires own { IsSeatOf tickets.now seat }
    requires fresh { drawn_by seat ≡ [] }
    requires few { times ≤ 131072 }
    ensures { IsSeatOf tickets.now result.0 }
{
    let mut numbers = Vec::new(alloc);
    for _turn in 0..times {
        let number = tickets.draw(&mut seat);
        let _ = numbers.push(number);
    }
    (seat, numbers)
}

fn both<R: Threads + Sync>(
    rt: &R,
    alloc: Global,
    tickets: &Tickets,
    first: TicketSeat,
    second: TicketSeat,
) -> ((TicketSeat, Vec<u64>), (TicketSeat, Vec<u64>))
    requires own { IsSeatOf tickets.now first × IsSeatOf tickets.now second }
    requires fresh { (drawn_by first ≡ []) × (drawn_by second ≡ []) }
    ensures { IsSeatOf tickets.now result.0.0 × IsSeatOf tickets.now result.1.0 }
{
    join(
        rt,
        || draw_all(alloc, tickets, first, 100),
        || draw_all(alloc, tickets, second, 100),
    )
}

// Marks each of these numbers once more.
fn mark(times: &mut [u8], numbers: &[u64]) {
    for number in numbers {
        if let Some(count) = times.get_mut(*number as usize) {
            *count = count.saturating_add(1);
        }
    }
}

#[test]
fn two_threads_draw_each_number_once(rt: HostRuntime) -> Result<(), Fail> {
    let alloc = rt.alloc();
    let mut row = Vec::with_capacity(alloc, 2)?;
    let (tickets, seats) = Tickets::new(alloc, 2)?;
    let mut seats = seats.into_vec();
    let Some(second) = seats.pop() else {
        unreachable!()
    };
    let Some(first) = seats.pop() else {
        unreachable!()
    };
    let (one, other) = both(&rt, alloc, &tickets, first, second);
    let mut times = [0u8; 200];
    mark(&mut times, &one.1);
    mark(&mut times, &other.1);
    row.push_reserved(one.0);
    row.push_reserved(other.0);
    assert_eq!(rt; tickets.close(Items::of_vec(row)), 200);
    assert!(rt; times.iter().all(|count| *count == 1));
    Ok(())
}
