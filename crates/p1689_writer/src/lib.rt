//! Writes the document that tells a build which modules each unit provides and requires, in the format P1689R5.
//!
//! The document is a JSON value of `serde_json`, in its pretty layout. `specs/Document.antt` says which value.
#![tactic(auto)]

ghost use Rattle.std.specs.Prelude.{◌≡◌, IfOk};
ghost use Rattle.p1689_writer.specs.Document.{document as document_text};

mod document;
mod rule;

use document::document;
use scan_model::{Bytes, Items, NoMemory, UnitEnd};
use std::alloc::Global;

/// The P1689R5 document, version 1 and revision 0, with a rule for each unit that ended with a record, in order.
/// Other ends are left out. The text is UTF-8 and ends with a newline.
pub fn text(alloc: Global, ends: &Items<UnitEnd>) -> Result<Bytes, NoMemory>
    ensures { IfOk result (λ bytes. bytes ≡ document_text ends.now) }
{
    let mut text = document(alloc, ends.as_slice())?.to_vec_pretty(alloc)?;
    text.push(b'\n')?;
    Ok(Bytes::of_vec(text))
}

#[cfg(test)]
mod tests;
