//! The answers that a worker was given, by their paths.
//!
//! A worker asks for most paths again and again. What it has seen once it finds here, without the lock of the shared cache.
#![tactic(auto)]

mod memo;

pub use memo::Memo;

#[cfg(test)]
mod tests;
