//! What was read, in shards: the rows of one map from paths to what their reads gave.
//!
//! A path's rows stand in one shard, over a source of its own, so that shards can be used side by side.
#![tactic(auto)]

mod kept_row;
mod places;
mod shard;
mod store;

pub use kept_row::KeptRow;
pub use places::Places;
pub use shard::{MOST_ROWS, Shard};
pub use store::{Store, shard_of};

#[cfg(test)]
mod tests;
