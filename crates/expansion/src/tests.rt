use crate::{Expanded, Mode, Site, expand};
use macro_table::{BadDefine, Macros, read_define};
use scan_model::{Bytes, Kind, NoMemory, Tok};
use std::alloc::Global;
use std::test::Fail;

mod costs;
mod nests;
mod programs;

/// A token whose kind its first byte tells. No space stands before a `(`, and one before all others.
fn token(alloc: Global, word: &str) -> Result<Tok, NoMemory> {
    let bytes = word.as_bytes();
    let kind = match bytes {
        [b'0'..=b'9', ..] => Kind::Number,
        [b'a'..=b'z' | b'A'..=b'Z' | b'_', ..] => Kind::Ident,
        [b'"', ..] => Kind::Str,
        _ => Kind::Punct,
    };
    Ok(Tok {
        kind,
        text: Bytes::copy(alloc, bytes)?,
        space: bytes != b"(".as_slice(),
        line: 1,
    })
}

fn tokens(alloc: Global, words: &str) -> Result<Vec<Tok>, NoMemory> {
    let mut toks = Vec::new(alloc);
    for word in words.split_whitespace() {
        toks.push(token(alloc, word)?)?;
    }
    Ok(toks)
}

/// Defines what the words after `define` say.
fn define(alloc: Global, macros: &mut Macros, words: &str) -> Result<(), Fail> {
    let toks = tokens(alloc, words)?;
    match read_define(alloc, toks.as_slice())? {
        Ok((name, def)) => Ok(macros.define(name, def)?),
        Err(BadDefine) => Err(Fail::from("a bad definition")),
    }
}

/// The tokens, with a blank between two of them.
fn add_tokens(text: &mut Vec<u8>, toks: &[Tok]) -> Result<(), NoMemory> {
    for tok in toks {
        if !text.is_empty() {
            text.push(b' ')?;
        }
        text.extend_from_slice(tok.text.as_slice())?;
    }
    Ok(())
}

/// The tokens, or the name of the answer that gives none.
fn shown(alloc: Global, expanded: &Expanded) -> Result<Vec<u8>, NoMemory> {
    let mut text = Vec::new(alloc);
    match expanded {
        Expanded::Done(toks, _) => add_tokens(&mut text, toks.as_slice())?,
        Expanded::Bad => text.extend_from_slice(b"Bad")?,
        Expanded::TooLong => text.extend_from_slice(b"TooLong")?,
        Expanded::Counter => text.extend_from_slice(b"Counter")?,
    }
    Ok(text)
}

/// The words replaced, on a line that is presumed to be the fifth of `f.cpp`.
fn expanded(alloc: Global, macros: &Macros, mode: Mode, words: &str) -> Result<Expanded, NoMemory> {
    let site = Site {
        file: Bytes::copy(alloc, b"\"f.cpp\"")?,
        shift: 4,
    };
    let mode = match mode {
        Mode::Text(_) => Mode::Text(5),
        other => other,
    };
    let toks = tokens(alloc, words)?;
    expand(alloc, macros, &site, mode, toks.as_slice())
}
