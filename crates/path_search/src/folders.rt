ghost use Rattle.std.specs.Prelude.{◌≡◌, IfOk, IfSome, is_some};
ghost use Rattle.std.specs.List.{before_last, list_any};
ghost use Rattle.scan_model.specs.Paths.{folder, is_slash, or_root};

use scan_model::{Bytes, NoMemory, PathText};
use std::alloc::Global;

fn before_last_slash(text: &[u8]) -> Option<&[u8]>
    ensures found { is_some result ≡ list_any is_slash text.now }
    ensures front { IfSome result (λ front. front.now ≡ before_last is_slash text.now) }
{
    'bytes: for i in (0..text.len()).rev() {
        if text[i] == b'/' {
            return Some(&text[..i]);
        }
    }
    None
}

fn or_root(front: &[u8]) -> &[u8]
    ensures { result.now ≡ or_root front.now }
{
    if front.is_empty() { b"/" } else { front }
}

fn folder_text(path: &[u8]) -> &[u8]
    ensures { result.now ≡ folder path.now }
{
    match before_last_slash(path) {
        None => b".",
        Some(front) => or_root(front),
    }
}

/// A path without its last segment: `.` where it has no `/`, and `/` where its only `/` is first.
pub fn folder(alloc: Global, path: &PathText) -> Result<PathText, NoMemory>
    ensures { IfOk result (λ parent. parent ≡ folder path.now) }
{
    let parent = folder_text(path.as_slice());
    Ok(PathText::of_normal(Bytes::copy(alloc, parent)?))
}
