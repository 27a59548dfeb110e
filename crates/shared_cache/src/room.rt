ghost use Rattle.std.specs.Prelude.{◌≡◌, ◌≤◌, length, vec_capacity};
ghost use Rattle.shared_cache.specs.Shared.{HaveRoom};

use cache_desk::Desk;
use file_source::Source;
use shard_cache::Shard;
use turn_lock::{Logged, Pass};

/// The room that closing a cache takes, so that it takes no memory then.
pub(crate) struct Room<S: Source>
where
    Desk<S>: Logged,
{
    /// For each lock an empty list, whose room is for its passes.
    pub(crate) rows: Vec<Vec<Pass<Desk<S>>>>,
    /// An empty list, whose room is for the closed shards.
    pub(crate) shards: Vec<Shard<S>>,
    ghost rows_are: { (length rows.items ≡ 16) × HaveRoom 64 rows.items },
    ghost empty: { (length shards.items ≡ 0) × (16 ≤ vec_capacity shards) },
}
