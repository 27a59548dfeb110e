//! The cache that workers share: sixteen shards, each under a lock of its own. A worker looks at a path, reads what it
//! claims outside every lock, and publishes what the read gave. Each path is claimed once.
#![tactic(auto)]

mod cache;
mod claim;
mod closing;
mod looked;
mod looking;
mod opening;
mod parts;
mod room;
mod shard_lock;

pub use cache::{Cache, Passes};
pub use claim::{Claim, Ready, read_and_reduce};
pub use looked::{Looked, Mark};

#[cfg(test)]
mod tests;
