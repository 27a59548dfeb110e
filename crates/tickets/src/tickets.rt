ghost use Rattle.std.specs.Prelude.{◌≡◌, ◌<◌, ◌≤◌, ◌++◌, [], ◌∷◌, ℕ, All, length, IfOk, vec_capacity};
ghost use Rattle.tickets.specs.Tickets.{total, times, hand};

use crate::hand::{Draw, DrawRule, Gather, GiveOne, Hand};
use atomic_table::{Seat, Shared, Table};
use scan_model::{Items, NoMemory};
use std::alloc::Global;

/// The numbers from 0 on, which workers draw.
#[derive(Drop)]
pub struct Tickets {
    table: Table<Option<u32>, Hand, u32, DrawRule, Global>,
    ghost sized: { (table.shared.table_id.words ≡ 1) × (table.shared.table_id.slots ≡ 0) },
}

/// One worker's right to draw.
#[derive(Drop)]
pub struct TicketSeat {
    seat: Seat<Option<u32>, Hand>,
    ghost at_rest: { seat.me ≡ (hand 1 seat.me.0.drawn, []) },
}

impl Tickets {
    /// Tickets from 0 on, and a seat for each of 1 to 64 workers, which has drawn nothing. `Err` is want of memory.
    pub fn new(alloc: Global, workers: u32) -> Result<(Tickets, Items<TicketSeat>), NoMemory>
        requires { (0 < workers) × (workers ≤ 64) }
        ensures workers { IfOk result (λ r. (r.0.table.shared.key ≡ workers) × (length r.1 ≡ workers)) }
        ensures seats { IfOk result (λ r. All (λ s. (s.seat.table_id ≡ r.0.table.shared.table_id) × (s.seat.me ≡ (hand 1 [], []))) r.1) }
    {
        let row = Vec::with_capacity(alloc, workers as usize)?;
        let (table, seat) = Table::of_words(alloc, &[0], &workers)?;
        let row = deal(&table.shared, seat, row, workers);
        Ok((Tickets { table }, Items::of_vec(row)))
    }

    /// Draws the next number: one atomic step. It is greater than all that the seat drew before. It takes no memory and
    /// waits for nobody.
    pub fn draw(&self, seat: &mut TicketSeat) -> u64
        requires own { seat.old.seat.table_id ≡ self.now.table.shared.table_id }
        requires few { length (seat.old.seat.me.0.drawn) ≤ 131072 }
        ensures own { seat.new.seat.table_id ≡ self.now.table.shared.table_id }
        ensures drawn { seat.new.seat.me.0.drawn ≡ seat.old.seat.me.0.drawn ++ result ∷ [] }
        ensures later { All (λ n. n < result) (seat.old.seat.me.0.drawn) }
    {
        self.table.shared.fetch_add::<Draw>(&mut seat.seat, 0, 1)
    }

    /// The number of draws, for all the seats: what they drew are the numbers below it, each once. It takes no memory.
    pub fn close(self, seats: Items<TicketSeat>) -> u64
        requires all { (length seats ≡ self.table.shared.key) × (0 < length seats) }
        requires own { All (λ s. s.seat.table_id ≡ self.table.shared.table_id) seats }
        ensures below { (x : ℕ) → x < result → total (λ s. times x s.seat.me.0.drawn) seats ≡ 1 }
        ensures beyond { (x : ℕ) → result ≤ x → total (λ s. times x s.seat.me.0.drawn) seats ≡ 0 }
    {
        let Tickets { table } = self;
        let seat = gather_all(&table.shared, seats.into_vec());
        let closed = table.close_with(seat);
        let drawn = closed.word(0);
        closed.free();
        drawn
    }
}

type Board = Shared<Option<u32>, Hand, u32, DrawRule>;

// The seat of one worker.
fn seat_of(seat: Seat<Option<u32>, Hand>) -> TicketSeat
    requires { seat.me ≡ (hand 1 seat.me.0.drawn, []) }
    ensures { result.seat ≡ seat }
{
    TicketSeat { seat }
}

// One seat for each worker.
fn deal(
    shared: &Board,
    mut seat: Seat<Option<u32>, Hand>,
    mut row: Vec<TicketSeat>,
    workers: u32,
) -> Vec<TicketSeat>
    requires table { (seat.table_id ≡ shared.now.table_id) × (shared.now.table_id.words ≡ 1) }
    requires ready { seat.me ≡ (hand workers [], []) }
    requires row { (row.items ≡ []) × (workers ≤ vec_capacity row) × (0 < workers) }
    ensures count { length result.items ≡ workers }
    ensures seats { All (λ s. (s.seat.table_id ≡ shared.now.table_id) × (s.seat.me ≡ (hand 1 [], []))) result.items }
{
    let last = workers - 1;
    for number in 0..last {
        let part = shared.split_seat::<GiveOne>(&mut seat);
        row.push_reserved(seat_of(part));
    }
    row.push_reserved(seat_of(seat));
    row
}

// The seat that has all that these seats know.
fn gather_all(shared: &Board, mut seats: Vec<TicketSeat>) -> Seat<Option<u32>, Hand>
    requires table { 0 < shared.now.table_id.words }
    requires some { 0 < length seats.items }
    requires own { All (λ s. s.seat.table_id ≡ shared.now.table_id) seats.items }
    ensures table { (result.table_id ≡ shared.now.table_id) × (result.me.1 ≡ []) }
    ensures places { result.me.0.places ≡ length seats.items }
    ensures drawn { (x : ℕ) → times x result.me.0.drawn ≡ total (λ s. times x s.seat.me.0.drawn) seats.items }
{
    let Some(last) = seats.pop() else {
        unreachable!()
    };
    let TicketSeat { mut seat, .. } = last;
    while let Some(next) = seats.pop() {
        let TicketSeat { seat: other, .. } = next;
        shared.join_seat::<Gather>(&mut seat, other);
    }
    seat
}
