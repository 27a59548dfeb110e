//! A ticket lock round a state that keeps a log. A caller holds a pass, draws a ticket, and has the state to itself
//! when its ticket is served.
//!
//! What the lock promises is said by logs: what a pass has seen begins the state's log, and has each entry that names
//! the pass. A caller that did nothing in between so knows that nobody else did it in its name.
#![tactic(auto)]

ghost use Rattle.std.specs.Prelude.{ℕ, List};

mod lock;
mod steps;
#[cfg(test)]
mod tests;
mod view;
mod worked;

pub use lock::{Pass, TurnLock};

/// A state with a log that only grows. Each entry names, by its number, the pass in whose turn it was added.
pub trait Logged: Send {
    type Entry;

    /// The entries, the oldest first.
    ghost log: { Self → List Self.Entry };

    /// The number of the pass that an entry names.
    ghost maker: { Self.Entry → ℕ };

    /// Numbers of the state that no step changes.
    ghost fixed: { Self → List ℕ };
}
