//! The scan of one command as one C++20 or C++23 unit, from its files to its record or fault.
//!
//! A `Unit` asks for one path at a time and is given its answer: the lines that are kept of the file, or why there are
//! none. It knows neither sources nor stores. At any moment what it has asked begins what translation phases 1 to 4 look
//! at over every file map that agrees with the answers, and its end is theirs.
#![tactic(auto)]

mod answers;
mod begun;
mod conditions;
mod faults;
mod jumping;
mod lines;
mod obeying;
mod parts;
mod running;
mod searches;
mod stage;
mod starting;
mod turn;
mod unit;

pub use turn::Turn;
pub use unit::Unit;
