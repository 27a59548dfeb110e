ghost use Rattle.std.specs.Prelude.{◌≡◌, ◌<◌, ◌++◌, IfOk, OnOk, length};
ghost use Rattle.scan_model.specs.Substitution.{shown_bytes, shown_token, shown_after_first, shown_tokens};
ghost use Rattle.substitution.specs.Strings.{shown_first, shown_further, string_token, toks_of};

use crate::Marked;
use scan_model::{Bytes, Kind, NoMemory, Tok};
use std::alloc::Global;
use token_spelling::is_str;

/// The string that `#` makes of the tokens ([cpp.stringize]): with the space of the `#` and this line. None exactly
/// where the bytes are no one string.
pub(crate) fn string_of(
    alloc: Global,
    line: u32,
    hash: &Tok,
    marked: &[Marked],
) -> Result<Option<Tok>, NoMemory>
    ensures { IfOk result (λ tok. tok ≡ string_token line hash.now (toks_of marked.now)) }
{
    let mut text = Vec::new(alloc);
    text.push(b'"')?;
    add_tokens(&mut text, marked)?;
    text.push(b'"')?;
    if !is_str(&text) {
        return Ok(None);
    }
    Ok(Some(Tok {
        kind: Kind::Str,
        text: Bytes::of_vec(text),
        space: hash.space,
        line,
    }))
}

/// Adds the spellings, with a blank before each token but the first that has a space.
fn add_tokens(text: &mut Vec<u8>, marked: &[Marked]) -> Result<(), NoMemory>
    ensures { OnOk result (text.new.items ≡ text.old.items ++ shown_tokens (toks_of marked.now)) }
{
    if marked.is_empty() {
        return Ok(());
    }
    add_token(text, &marked[0].tok)?;
    add_further_tokens(text, &marked[1..])
}

fn add_further_tokens(text: &mut Vec<u8>, marked: &[Marked]) -> Result<(), NoMemory>
    ensures { OnOk result (text.new.items ≡ text.old.items ++ shown_after_first (toks_of marked.now)) }
{
    'tokens: for i in 0..marked.len() {
        add_further_token(text, &marked[i].tok)?;
    }
    Ok(())
}

fn add_further_token(text: &mut Vec<u8>, tok: &Tok) -> Result<(), NoMemory>
    ensures { OnOk result (text.new.items ≡ text.old.items ++ shown_further tok.now) }
{
    if tok.space {
        text.push(b' ')?;
    }
    add_token(text, tok)
}

fn add_token(text: &mut Vec<u8>, tok: &Tok) -> Result<(), NoMemory>
    ensures { OnOk result (text.new.items ≡ text.old.items ++ shown_token tok.now) }
{
    add_bytes(
        text,
        matches!(tok.kind, Kind::Char | Kind::Str),
        tok.text.as_slice(),
    )
}

fn add_bytes(text: &mut Vec<u8>, quoted: bool, bytes: &[u8]) -> Result<(), NoMemory>
    ensures { OnOk result (text.new.items ≡ text.old.items ++ shown_bytes quoted bytes.now) }
{
    'bytes: for i in 0..bytes.len() {
        add_byte(text, quoted, &bytes[i..])?;
    }
    Ok(())
}

/// Adds the first byte: a newline as `\n`, and a backslash before `"` and `\` of quoted text.
fn add_byte(text: &mut Vec<u8>, quoted: bool, bytes: &[u8]) -> Result<(), NoMemory>
    requires { 0 < length bytes.now }
    ensures { OnOk result (text.new.items ≡ text.old.items ++ shown_first quoted bytes.now) }
{
    let byte = bytes[0];
    if byte == b'\r' && bytes.len() > 1 && bytes[1] == b'\n' {
        return Ok(());
    }
    if byte == b'\n' {
        text.extend_from_slice(b"\\n")?;
        return Ok(());
    }
    if quoted && (byte == b'"' || byte == b'\\') {
        text.push(b'\\')?;
    }
    text.push(byte)?;
    Ok(())
}
