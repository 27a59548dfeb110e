ghost use Rattle.std.specs.Prelude.{◌≡◌, IfOk, OnOk};
ghost use Rattle.scan_model.specs.Paths.{is_absolute, is_kept};
ghost use Rattle.path_search.specs.Writing.{is_bare, or_here, with_segment, with_segments};

use std::alloc::AllocError;

pub fn is_absolute(text: &[u8]) -> bool
    ensures { result ≡ is_absolute text.now }
{
    match text {
        [] => false,
        [first, ..] => *first == b'/',
    }
}

// A segment that stays in the normal form.
pub fn is_kept(segment: &[u8]) -> bool
    ensures { result ≡ is_kept segment.now }
{
    match segment {
        [] => false,
        [byte] => *byte != b'.',
        _ => true,
    }
}

// The next segment needs no `/` before it.
fn is_bare(path: &[u8]) -> bool
    ensures { result ≡ is_bare path.now }
{
    match path {
        [] => true,
        [byte] => *byte == b'/',
        _ => false,
    }
}

fn add_segment(path: &mut Vec<u8>, segment: &[u8]) -> Result<(), AllocError>
    ensures { OnOk result (path.new.items ≡ with_segment path.old.items segment.now) }
{
    if !is_bare(path) {
        path.push(b'/')?;
    }
    path.extend_from_slice(segment)
}

fn add_segments(path: &mut Vec<u8>, text: &[u8]) -> Result<(), AllocError>
    ensures { OnOk result (path.new.items ≡ with_segments path.old.items text.now) }
{
    'segments: for segment in text.split(|byte| *byte == b'/') {
        if is_kept(segment) {
            add_segment(path, segment)?;
        }
    }
    Ok(())
}

/// The path with the segments of the text that stay, and `.` where nothing is left.
pub fn extended(mut path: Vec<u8>, text: &[u8]) -> Result<Vec<u8>, AllocError>
    ensures { IfOk result (λ bytes. bytes.items ≡ or_here (with_segments path.items text.now)) }
{
    add_segments(&mut path, text)?;
    if path.is_empty() {
        path.push(b'.')?;
    }
    Ok(path)
}
