ghost use Rattle.std.specs.Prelude.{◌≡◌, ◌++◌, IfOk, OnOk};
ghost use Rattle.std.specs.Option.{option_map};
ghost use Rattle.scan_model.specs.TokenTests.{unquoted};
ghost use Rattle.scan_model.specs.HeaderName.{form_of, name_of, header_or_name};
ghost use Rattle.line_actions.specs.Names.{form_and_name, angled_name, quoted_name, spelled, spelled_on, ClosedBy};

use plain_lines::unquoted;
use scan_model::{Bytes, Form, NoMemory, Tok};
use std::alloc::Global;

/// The form and the name of a token that is a header ([lex.header]).
pub(crate) fn header_name(alloc: Global, text: &[u8]) -> Result<(Form, Bytes), NoMemory>
    ensures { IfOk result (λ name. name ≡ (form_of text.now, unquoted text.now)) }
{
    Ok((Form::of(text), Bytes::copy(alloc, unquoted(text))?))
}

// Adds the spelling of a token behind others.
fn push_spelling(name: &mut Vec<u8>, tok: &Tok) -> Result<(), NoMemory>
    ensures { OnOk result (name.new.items ≡ name.old.items ++ spelled_on tok.now) }
{
    if tok.space {
        name.push(b' ')?;
    }
    name.extend_from_slice(tok.text.as_slice())?;
    Ok(())
}

// Adds the spellings up to the first `>`. The answer is whether there is one.
fn push_to_angle(name: &mut Vec<u8>, toks: &[Tok]) -> Result<bool, NoMemory>
    ensures { IfOk result (ClosedBy name.old.items toks.now name.new.items) }
{
    'toks: for tok in toks {
        if tok.is_greater() {
            return Ok(true);
        }
        push_spelling(name, tok)?;
    }
    Ok(false)
}

// What follows a `<`: a name that isn't empty, up to the first `>`.
fn angled(alloc: Global, toks: &[Tok]) -> Result<Option<Bytes>, NoMemory>
    ensures { IfOk result (λ name. name ≡ spelled toks.now) }
{
    if toks.is_empty() || toks[0].is_greater() {
        return Ok(None);
    }
    let mut name = Vec::from_slice(alloc, toks[0].text.as_slice())?;
    if push_to_angle(&mut name, &toks[1..])? {
        Ok(Some(Bytes::of_vec(name)))
    } else {
        Ok(None)
    }
}

/// The form and the name that replaced tokens give an include ([cpp.include]): a plain string, or `<` up to the first `>`.
/// `Err` is want of memory.
pub(crate) fn name_of(alloc: Global, toks: &[Tok]) -> Result<Option<(Form, Bytes)>, NoMemory>
    ensures { IfOk result (λ name. name ≡ option_map form_and_name (name_of toks.now)) }
{
    if toks.is_empty() {
        return Ok(None);
    }
    let first = &toks[0];
    if first.is_plain_string() {
        return quoted(alloc, first.text.as_slice());
    }
    if !first.is_less() {
        return Ok(None);
    }
    Ok(as_angled(angled(alloc, &toks[1..])?))
}

fn as_angled(name: Option<Bytes>) -> Option<(Form, Bytes)>
    ensures { result ≡ option_map angled_name name }
{
    match name {
        Some(name) => Some((Form::Angled, name)),
        None => None,
    }
}

// The name in a string, where it isn't empty.
fn quoted(alloc: Global, text: &[u8]) -> Result<Option<(Form, Bytes)>, NoMemory>
    ensures { IfOk result (λ name. name ≡ quoted_name (unquoted text.now)) }
{
    let inside = unquoted(text);
    if inside.is_empty() {
        return Ok(None);
    }
    Ok(Some((Form::Quoted, Bytes::copy(alloc, inside)?)))
}

/// The same where a header may stand too ([cpp.cond]).
pub(crate) fn header_or_name(alloc: Global, toks: &[Tok]) -> Result<Option<(Form, Bytes)>, NoMemory>
    ensures { IfOk result (λ name. name ≡ option_map form_and_name (header_or_name toks.now)) }
{
    if toks.is_empty() {
        return Ok(None);
    }
    let first = &toks[0];
    if first.is_header() {
        return Ok(Some(header_name(alloc, first.text.as_slice())?));
    }
    name_of(alloc, toks)
}
