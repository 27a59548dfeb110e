ghost use Rattle.std.specs.Prelude.{◌≡◌, if◌then◌else◌, [], IfOk};
ghost use Rattle.scan_model.specs.Paths.{is_kept, join};

use crate::normal;
use crate::segments::{extended, is_absolute, is_kept};
use scan_model::{Bytes, NoMemory, PathText};
use std::alloc::{AllocError, Global};

// What a path below the base begins with: nothing for the base `.`, which has no segment.
fn start_of(alloc: Global, base: &[u8]) -> Result<Vec<u8>, AllocError>
    ensures { IfOk result (λ start. start.items ≡ (if is_kept base.now then base.now else [])) }
{
    if is_kept(base) {
        Vec::from_slice(alloc, base)
    } else {
        Ok(Vec::new(alloc))
    }
}

/// The path of a name below a base, or of the name by itself where it begins with `/`.
pub fn join(alloc: Global, base: &PathText, name: &[u8]) -> Result<PathText, NoMemory>
    ensures { IfOk result (λ path. path ≡ join base.now name.now) }
{
    if is_absolute(name) {
        return normal(alloc, name);
    }
    let start = start_of(alloc, base.as_slice())?;
    Ok(PathText::of_normal(Bytes::of_vec(extended(start, name)?)))
}
