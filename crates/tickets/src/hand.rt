//! What is kept of the seats in proofs alone, the rule of their table, and its kinds of step.
//! The table has one word, the number of draws, and no slot.
ghost use Rattle.std.specs.Prelude.{◌+◌, ◌-◌, ◌++◌, []};
ghost use Rattle.tickets.specs.Tickets.{hand, spent, Drawn, drew};

use atomic_table::{Join, Play, Split, TableRule};
use std::collections::LinkedList;

/// What a seat knows: for how many workers it stands, and the numbers that it drew. No value of it is ever made.
pub struct Hand {
    pub places: u32,
    pub drawn: LinkedList<u64>,
}

/// The rule that each step on the tickets keeps.
pub struct DrawRule;

impl TableRule<Option<u32>, Hand, u32> for DrawRule {
    ghost holds = { λ workers. Drawn workers };

    ghost first = { λ workers. hand workers [] };
}

/// One is added to the word. The old value is the number drawn.
pub(crate) struct Draw;

impl Play<Option<u32>, Hand> for Draw {
    ghost then = { λ st m r m'. drew m r m' };
}

/// One worker's place goes to a new seat.
pub(crate) struct GiveOne;

impl Split<Hand> for GiveOne {
    ghost left = { λ v. hand (v.places - 1) [] };

    ghost right = { λ v. hand 1 [] };
}

/// One seat takes over what the other drew, before its own.
pub(crate) struct Gather;

impl Join<Hand> for Gather {
    ghost both = { λ v w. hand (w.places + v.places) (w.drawn ++ v.drawn) };

    ghost spent = { spent };
}
