ghost use Rattle.std.specs.Prelude.{◌≡◌, ◌<◌, ◌∷◌, ◌++◌, IfOk, OnOk, IsUtf8};
ghost use Rattle.scan_model.specs.ModuleLines.{with_part};

use scan_model::{NoMemory, Text};
use std::alloc::Global;

/// These bytes as a text of their own.
pub(crate) fn text_of(alloc: Global, bytes: &[u8]) -> Result<Text, NoMemory>
    requires { IsUtf8 bytes.now }
    ensures { IfOk result (λ text. text ≡ bytes.now) }
{
    match Text::read(alloc, bytes)? {
        Some(text) => Ok(text),
        None => unreachable!(),
    }
}

/// Adds an ASCII sign and a text at the end of a text.
pub(crate) fn append(text: &mut Vec<u8>, sign: u8, more: &[u8]) -> Result<(), NoMemory>
    requires sign { sign < 128 }
    requires text { IsUtf8 text.old.items }
    requires more { IsUtf8 more.now }
    ensures value { OnOk result (text.new.items ≡ text.old.items ++ sign ∷ more.now) }
    ensures utf8 { OnOk result (IsUtf8 text.new.items) }
{
    text.push(sign)?;
    text.extend_from_slice(more)?;
    Ok(())
}

/// A partition's whole name, `NAME:PART`.
pub(crate) fn with_part(alloc: Global, name: &Text, part: &Text) -> Result<Text, NoMemory>
    ensures { IfOk result (λ whole. whole ≡ with_part name.now part.now) }
{
    let mut whole = Vec::from_slice(alloc, name.as_slice())?;
    append(&mut whole, b':', part.as_slice())?;
    text_of(alloc, whole.as_slice())
}
