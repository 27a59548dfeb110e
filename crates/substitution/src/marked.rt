ghost use Rattle.std.specs.Prelude.{◌≡◌, unwrap_or};

use hide_sets::HideSet;
use scan_model::{Items, Tok};

/// A token, and the names that it may not be replaced by again.
#[derive(Drop)]
pub struct Marked {
    pub tok: Tok,
    pub hides: HideSet,
}

/// An argument of a call.
#[derive(Drop)]
pub struct Arg {
    /// As it is written.
    pub written: Items<Marked>,
    /// Fully replaced by itself; none where it isn't, and then it is taken as written everywhere.
    pub replaced: Option<Items<Marked>>,
}

impl Arg {
    /// The argument as it stands where it is neither `#`'s nor `##`'s.
    pub(crate) fn replaced(&self) -> &[Marked]
        ensures { result.now ≡ unwrap_or self.now.replaced self.now.written }
    {
        match &self.replaced {
            Some(replaced) => replaced.as_slice(),
            None => self.written.as_slice(),
        }
    }
}
