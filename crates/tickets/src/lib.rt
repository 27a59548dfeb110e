//! The tickets that workers draw: the numbers from 0 on, each to one worker, by one atomic step on one word.
#![tactic(auto)]

mod hand;
mod tickets;

pub use hand::Hand;
pub use tickets::{TicketSeat, Tickets};

#[cfg(test)]
mod tests;
