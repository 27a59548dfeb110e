use crate::{BadDefine, Def, FunctionDef, Macros, read_define};
use scan_model::{Bytes, Kind, NoMemory, Tok};
use std::alloc::Global;
use std::test::Fail;

mod defines;
mod maps;

/// A token whose kind its first byte tells. No space stands before a `(`, and one before all others.
fn token(alloc: Global, word: &str) -> Result<Tok, NoMemory> {
    let bytes = word.as_bytes();
    let kind = match bytes {
        [b'0'..=b'9', ..] => Kind::Number,
        [b'a'..=b'z' | b'A'..=b'Z' | b'_', ..] => Kind::Ident,
        _ => Kind::Punct,
    };
    Ok(Tok {
        kind,
        text: Bytes::copy(alloc, bytes)?,
        space: bytes != b"(".as_slice(),
        line: 1,
    })
}

fn tokens(alloc: Global, words: &str) -> Result<Vec<Tok>, NoMemory> {
    let mut toks = Vec::new(alloc);
    for word in words.split_whitespace() {
        toks.push(token(alloc, word)?)?;
    }
    Ok(toks)
}

/// The tokens, with a blank before each.
fn add_tokens(text: &mut Vec<u8>, toks: &[Tok]) -> Result<(), NoMemory> {
    for tok in toks {
        text.push(b' ')?;
        text.extend_from_slice(tok.text.as_slice())?;
    }
    Ok(())
}

/// The parameters, with a blank before each, and the variable part's name and `...`.
fn add_params(text: &mut Vec<u8>, function: &FunctionDef) -> Result<(), NoMemory> {
    for name in function.params.as_slice() {
        text.push(b' ')?;
        text.extend_from_slice(name.as_slice())?;
    }
    if let Some(name) = &function.variadic {
        text.push(b' ')?;
        text.extend_from_slice(name.as_slice())?;
        text.extend_from_slice(b"...")?;
    }
    Ok(())
}

/// `= LIST` of an object-like macro, `PARAMS = LIST` in parentheses of a function-like one, and `built in`.
fn shown(alloc: Global, def: &Def) -> Result<Vec<u8>, NoMemory> {
    let mut text = Vec::new(alloc);
    match def {
        Def::Object(body) => {
            text.push(b'=')?;
            add_tokens(&mut text, body.as_slice())?;
        }
        Def::Function(function) => {
            text.push(b'(')?;
            add_params(&mut text, function)?;
            text.extend_from_slice(b" ) =")?;
            add_tokens(&mut text, function.body.as_slice())?;
        }
        Def::BuiltIn(_) => text.extend_from_slice(b"built in")?,
    }
    Ok(text)
}

/// Fails where the texts differ.
fn same(got: &[u8], want: &str) -> Result<(), Fail> {
    if got == want.as_bytes() {
        Ok(())
    } else {
        Err(Fail::from("another text"))
    }
}
