use file_source::Source;
use shard_cache::Store;

/// What a run is handed: the source of the database, and the store of the files' sources.
#[derive(Drop)]
pub struct Outside<S: Source> {
    pub db: S,
    pub store: Store<S>,
}

/// What a run leaves.
#[derive(Drop)]
pub struct Ended<S: Source> {
    /// The program's exit status.
    pub status: u8,
    /// What the one read of the database gave; None where it wasn't read.
    pub db_given: Option<S::Given>,
    pub outside: Outside<S>,
}
