ghost use Rattle.std.specs.Prelude.{◌≡◌, ◌++◌, IfOk};
ghost use Rattle.scan_model.specs.Paste.{paste};

use crate::kinds::kind_of;
use scan_model::{Bytes, NoMemory, Tok};
use std::alloc::Global;

fn joined(alloc: Global, left: &[u8], right: &[u8]) -> Result<Vec<u8>, NoMemory>
    ensures { IfOk result (λ v. v.items ≡ left.now ++ right.now) }
{
    let mut text = Vec::with_capacity(alloc, left.len() + right.len())?;
    text.extend_from_slice(left)?;
    text.extend_from_slice(right)?;
    Ok(text)
}

/// The token whose spelling is both spellings joined ([cpp.concat]), with the line and the space of the left one. None
/// exactly where that spelling is no identifier, number, character literal, string literal or punctuator; a whole raw
/// string is one. `Err` is want of memory.
pub fn paste(alloc: Global, left: &Tok, right: &Tok) -> Result<Option<Tok>, NoMemory>
    ensures { IfOk result (λ t. t ≡ paste left.now right.now) }
{
    let text = joined(alloc, left.text.as_slice(), right.text.as_slice())?;
    match kind_of(&text) {
        Some(kind) => Ok(Some(Tok {
            kind,
            text: Bytes::of_vec(text),
            space: left.space,
            line: left.line,
        })),
        None => Ok(None),
    }
}
