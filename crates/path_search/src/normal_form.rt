ghost use Rattle.std.specs.Prelude.{◌≡◌, if◌then◌else◌, [], codes, IfOk};
ghost use Rattle.scan_model.specs.Paths.{is_absolute, normal};

use crate::segments::{extended, is_absolute};
use scan_model::{Bytes, NoMemory, PathText};
use std::alloc::{AllocError, Global};

fn root_of(alloc: Global, text: &[u8]) -> Result<Vec<u8>, AllocError>
    ensures { IfOk result (λ root. root.items ≡ (if is_absolute text.now then codes "/" else [])) }
{
    if is_absolute(text) {
        Vec::from_slice(alloc, b"/")
    } else {
        Ok(Vec::new(alloc))
    }
}

/// The normal form of a path: the text is cut at each `/`, its empty segments and its `.` are dropped, and the rest is
/// joined by `/`, after a `/` where the text begins with one. With nothing left it is `/` or `.`; `..` always stays.
pub fn normal(alloc: Global, text: &[u8]) -> Result<PathText, NoMemory>
    ensures { IfOk result (λ path. path ≡ normal text.now) }
{
    let root = root_of(alloc, text)?;
    Ok(PathText::of_normal(Bytes::of_vec(extended(root, text)?)))
}
