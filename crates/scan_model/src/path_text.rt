ghost use Rattle.std.specs.Prelude.{◌≡◌, IfOk};
ghost use Rattle.scan_model.specs.Paths.{IsNormal};

use crate::{Bytes, NoMemory};
use std::alloc::Global;
use std::marker::Model;

/// A path in normal form, which contracts see as the list of its bytes. Two files are the same where their paths are.
#[derive(Drop)]
pub struct PathText {
    bytes: Bytes,
}

impl Model for PathText {
    ghost use Rattle.std.specs.Prelude.{List, ℕ};
    ghost use Rattle.scan_model.specs.Paths.{IsNormal};

    ghost Value = { List ℕ };

    ghost view = { λ p. p.bytes };

    ghost invariant = { λ p. IsNormal p.bytes };
}

impl PathText {
    pub fn of_normal(bytes: Bytes) -> PathText
        requires { IsNormal bytes }
        ensures { result ≡ bytes }
    {
        PathText { bytes }
    }

    /// The same path in memory of its own. `Err` is want of memory.
    pub fn copy(&self, alloc: Global) -> Result<PathText, NoMemory>
        ensures { IfOk result (λ copy. copy ≡ self.now) }
    {
        Ok(PathText {
            bytes: Bytes::copy(alloc, self.as_slice())?,
        })
    }

    pub fn as_slice(&self) -> &[u8]
        ensures value { result.now ≡ self.now }
        ensures normal { IsNormal self.now }
    {
        self.bytes.as_slice()
    }
}
