ghost use Rattle.std.specs.Prelude.{◌≡◌, ◌++◌, Some, IfOk, OnOk, OnErr};
ghost use Rattle.scan_model.specs.Site.{file_spelling, first_site};
ghost use Rattle.plain_lines.specs.States.{site_of};
ghost use Rattle.line_actions.specs.Sites.{is_escaped, escaped_byte};

use scan_model::{Bytes, NoMemory, Site};
use std::alloc::Global;

// The string that `__FILE__` gives of a path ([cpp.predefined]).
fn file_spelling(alloc: Global, path: &[u8]) -> Result<Bytes, NoMemory>
    ensures { IfOk result (λ text. text ≡ file_spelling path.now) }
{
    let mut text = Vec::new(alloc);
    text.push(b'"')?;
    'bytes: for byte in path {
        push_escaped(&mut text, *byte)?;
    }
    text.push(b'"')?;
    Ok(Bytes::of_vec(text))
}

fn is_escaped(byte: u8) -> bool
    ensures { result ≡ is_escaped byte }
{
    byte == b'"' || byte == b'\\'
}

fn push_escaped(text: &mut Vec<u8>, byte: u8) -> Result<(), NoMemory>
    ensures { OnOk result (text.new.items ≡ text.old.items ++ escaped_byte byte) }
{
    if is_escaped(byte) {
        text.push(b'\\')?;
        text.push(byte)?;
        return Ok(());
    }
    text.push(byte)?;
    Ok(())
}

/// Gives a file its own site, where it has none yet. Want of memory changes nothing.
pub(crate) fn own_site(alloc: Global, path: &[u8], site: &mut Option<Site>) -> Result<(), NoMemory>
    ensures ok { OnOk result (site.new ≡ Some (site_of path.now site.old)) }
    ensures err { OnErr result (site.new ≡ site.old) }
{
    if site.is_some() {
        return Ok(());
    }
    *site = Some(Site {
        file: file_spelling(alloc, path)?,
        shift: 0,
    });
    Ok(())
}

/// The string that `__FILE__` gives at the site, in memory of its own.
pub(crate) fn file_at(alloc: Global, path: &[u8], site: &Option<Site>) -> Result<Bytes, NoMemory>
    ensures { IfOk result (λ text. text ≡ (site_of path.now site.now).file) }
{
    match site {
        Some(site) => Bytes::copy(alloc, site.file.as_slice()),
        None => file_spelling(alloc, path),
    }
}
