//! What is kept of a lock in proofs alone, and the rule of its table.
//! Word 0 is the next ticket, word 1 the ticket that is served, and slot 0 has the state or, while it is out, nothing.
ghost use Rattle.turn_lock.specs.Views.{start};
ghost use Rattle.turn_lock.specs.Rule.{Ruled};

use crate::Logged;
use atomic_table::TableRule;
use std::collections::LinkedList;
use std::snapshot::Snapshot;

/// What a lock's rule knows of its beginning: the first state, and how many passes there are.
#[derive(Drop)]
pub struct Beginning<T> {
    pub first: Snapshot<T>,
    pub passes: u32,
}

/// The rule that each step on the table keeps.
pub struct TicketRule;

impl<T: Logged> TableRule<Option<T>, View<T::Entry>, Beginning<T>> for TicketRule {
    ghost holds = { λ key. Ruled T.log T.fixed T.maker (T.log key.first.value) (T.fixed key.first.value) key.passes };

    ghost first = { λ key. start (T.fixed key.first.value) (T.log key.first.value) key.passes };
}

/// The number of a pass, what it knows to be fixed, and the log that it has seen.
pub struct Mark<E> {
    pub number: u32,
    pub fixed: LinkedList<u64>,
    pub seen: LinkedList<E>,
}

/// Where a seat stands: without a ticket, waiting with one, or in its turn.
/// A ticket here is a number of any size. The words have its remainder by 2^64.
pub enum Stage {
    Idle,
    Waits(u64),
    Turn(u64),
}

/// What a seat at the table knows. No value of it is ever made.
pub struct View<E> {
    pub marks: LinkedList<Mark<E>>,
    pub stage: Stage,
    pub opening: bool,
}
