//! What happens to the paths of a shard.
ghost use Rattle.std.specs.Prelude.{◌≡◌};
ghost use Rattle.cache_desk.specs.Desk.{row_in};

use file_source::Source;
use scan_model::PathText;
use shard_cache::KeptRow;

/// What happened to a path of a shard.
pub enum Happened<S: Source> {
    Claim(Claimed),
    Publication(Published<S>),
}

/// A path, and the number of the passes that claimed it.
#[derive(Drop)]
pub struct Claimed {
    pub path: PathText,
    pub by: u32,
}

/// The row of a claim, and the number of the passes that made it.
pub struct Published<S: Source> {
    pub row: KeptRow<S>,
    pub by: u32,
}

impl<S: Source> Drop for Published<S> {
    fn drop(self) {
        let Published { row: _, by: _ } = self;
    }
}

impl<S: Source> Drop for Happened<S> {
    fn drop(self) {
        match self {
            Happened::Claim(_) => {}
            Happened::Publication(_) => {}
        }
    }
}

impl<S: Source> Published<S> {
    fn into_row(self) -> KeptRow<S>
        ensures { result ≡ self.row }
    {
        let Published { row, by: _ } = self;
        row
    }
}

impl<S: Source> Happened<S> {
    /// The row that was published.
    pub(crate) fn into_row(self) -> Option<KeptRow<S>>
        ensures { result ≡ row_in self }
    {
        match self {
            Happened::Claim(_) => None,
            Happened::Publication(published) => Some(published.into_row()),
        }
    }
}
