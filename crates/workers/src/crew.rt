//! The workers' things: apart, list by list, or together, hand by hand.
ghost use Rattle.std.specs.Prelude.{◌≡◌, ◌≤◌, [], length, reverse, vec_capacity};
ghost use Rattle.workers.specs.Hands.{ArePartsOf};

use cache_desk::Desk;
use file_source::Source;
use shared_cache::Passes;
use tickets::TicketSeat;
use turn_lock::Logged;
use worker::{Hand, Share};

/// A seat, passes and a share for each worker, in order, and the hands that are put together.
pub(crate) struct Crew<S: Source>
where
    Desk<S>: Logged,
{
    pub(crate) seats: Vec<TicketSeat>,
    pub(crate) passes: Vec<Passes<S>>,
    pub(crate) shares: Vec<Share>,
    pub(crate) hands: Vec<Hand<S>>,
}

/// Puts each worker's hand together, from the last worker to the first. It takes no memory.
pub(crate) fn put_together<S: Source>(crew: Crew<S>) -> Crew<S>
    requires same { (length crew.passes.items ≡ length crew.seats.items) × (length crew.shares.items ≡ length crew.seats.items) }
    requires room { (crew.hands.items ≡ []) × (length crew.seats.items ≤ vec_capacity crew.hands) }
    ensures parts { ArePartsOf (reverse result.hands.items) crew.seats.items crew.passes.items crew.shares.items }
    ensures emptied { (result.seats.items ≡ []) × (result.passes.items ≡ []) × (result.shares.items ≡ []) }
    ensures room { (vec_capacity result.seats ≡ vec_capacity crew.seats) × (vec_capacity result.passes ≡ vec_capacity crew.passes) × (vec_capacity result.shares ≡ vec_capacity crew.shares) }
{
    let Crew {
        mut seats,
        mut passes,
        mut shares,
        mut hands,
    } = crew;
    'hands: while let Some(seat) = seats.pop() {
        let Some(own) = passes.pop() else {
            unreachable!()
        };
        let Some(share) = shares.pop() else {
            unreachable!()
        };
        hands.push_reserved(Hand {
            seat,
            passes: own,
            share,
        });
    }
    Crew {
        seats,
        passes,
        shares,
        hands,
    }
}

/// Takes each hand apart, from the last to the first. It takes no memory.
pub(crate) fn take_apart<S: Source>(crew: Crew<S>) -> Crew<S>
    requires emptied { (crew.seats.items ≡ []) × (crew.passes.items ≡ []) × (crew.shares.items ≡ []) }
    requires room { (length crew.hands.items ≤ vec_capacity crew.seats) × (length crew.hands.items ≤ vec_capacity crew.passes) × (length crew.hands.items ≤ vec_capacity crew.shares) }
    ensures parts { ArePartsOf (reverse crew.hands.items) result.seats.items result.passes.items result.shares.items }
    ensures emptied { result.hands.items ≡ [] }
{
    let Crew {
        mut seats,
        mut passes,
        mut shares,
        mut hands,
    } = crew;
    'hands: while let Some(hand) = hands.pop() {
        let Hand {
            seat,
            passes: own,
            share,
        } = hand;
        seats.push_reserved(seat);
        passes.push_reserved(own);
        shares.push_reserved(share);
    }
    Crew {
        seats,
        passes,
        shares,
        hands,
    }
}
