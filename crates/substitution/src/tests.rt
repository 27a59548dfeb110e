ghost use Rattle.std.specs.Prelude.{IfOk, OnOk};
ghost use Rattle.hide_sets.specs.Sets.{Sets};
ghost use Rattle.substitution.specs.Meaning.{IsArg, AreMarked};
ghost use Rattle.substitution.specs.Calls.{AreArgs};

use crate::{Arg, IndexedDef, Marked, substitute_function, substitute_object};
use hide_sets::{HideSet, HideSets};
use scan_model::{Bytes, FunctionDef, Items, Kind, NoMemory, Tok};
use std::alloc::Global;
use std::test::Fail;

mod calls;
mod needs;
mod objects;

// In a row of these tests `|` stands between two tokens, and a blank before a token with a space. A call is its
// parameters, list and arguments, with `/` between them; an argument is `WRITTEN^REPLACED` where both differ.

/// The line of the replacement list, of the arguments, and of the name.
const LIST: u32 = 1;

const ARGS: u32 = 2;

const NAME: u32 = 7;

/// The kind by the first or the last byte.
fn kind_of(text: &[u8]) -> Kind {
    match text {
        [.., b'"'] => Kind::Str,
        [.., b'\''] => Kind::Char,
        [b'<', .., b'>'] => Kind::Header,
        [b'\\'] => Kind::Stray,
        [b'0'..=b'9', ..] => Kind::Number,
        [b'a'..=b'z' | b'A'..=b'Z' | b'_', ..] => Kind::Ident,
        _ => Kind::Punct,
    }
}

fn token(alloc: Global, line: u32, word: &str) -> Result<Tok, NoMemory> {
    let (space, text) = match word.as_bytes() {
        [b' ', text @ ..] => (true, text),
        text => (false, text),
    };
    Ok(Tok {
        kind: kind_of(text),
        text: Bytes::copy(alloc, text)?,
        space,
        line,
    })
}

fn list(alloc: Global, words: &str) -> Result<Items<Tok>, NoMemory> {
    let mut toks = Vec::new(alloc);
    if !words.is_empty() {
        for word in words.split('|') {
            toks.push(token(alloc, LIST, word)?)?;
        }
    }
    Ok(Items::of_vec(toks))
}

fn add_marked(marked: &mut Vec<Marked>, tok: Tok) -> Result<(), NoMemory>
    ensures { OnOk result ((sets : Sets) → AreMarked sets marked.old.items → AreMarked sets marked.new.items) }
{
    marked.push(Marked {
        tok,
        hides: HideSet::empty(),
    })?;
    Ok(())
}

/// The tokens, which hide nothing.
fn marked(alloc: Global, words: &str) -> Result<Items<Marked>, NoMemory>
    ensures { IfOk result (λ marked. (sets : Sets) → AreMarked sets marked) }
{
    let mut marked = Vec::new(alloc);
    if words.is_empty() {
        return Ok(Items::of_vec(marked));
    }
    'words: for word in words.split('|') {
        add_marked(&mut marked, token(alloc, ARGS, word)?)?;
    }
    Ok(Items::of_vec(marked))
}

fn arg(alloc: Global, words: &str) -> Result<Arg, NoMemory>
    ensures { IfOk result (λ arg. (sets : Sets) → IsArg sets arg) }
{
    let Some((written, replaced)) = words.split_once('^') else {
        return Ok(Arg {
            written: marked(alloc, words)?,
            replaced: None,
        });
    };
    Ok(Arg {
        written: marked(alloc, written)?,
        replaced: Some(marked(alloc, replaced)?),
    })
}

fn add_arg(args: &mut Vec<Arg>, arg: Arg) -> Result<(), NoMemory>
    ensures { OnOk result ((sets : Sets) → AreArgs sets args.old.items → IsArg sets arg → AreArgs sets args.new.items) }
{
    args.push(arg)?;
    Ok(())
}

fn args(alloc: Global, rows: &str) -> Result<Vec<Arg>, NoMemory>
    ensures { IfOk result (λ args. (sets : Sets) → AreArgs sets args.items) }
{
    let mut args = Vec::new(alloc);
    'rows: for words in rows.split('/') {
        add_arg(&mut args, arg(alloc, words)?)?;
    }
    Ok(args)
}

/// A parameter whose name `...` follows is the variable part.
fn definition(alloc: Global, params: &str, body: &str) -> Result<FunctionDef, NoMemory> {
    let mut names = Vec::new(alloc);
    let mut variadic = None;
    for param in params.split(' ') {
        match param.strip_suffix("...") {
            Some(name) => variadic = Some(Bytes::copy(alloc, name.as_bytes())?),
            None => names.push(Bytes::copy(alloc, param.as_bytes())?)?,
        }
    }
    Ok(FunctionDef {
        params: Items::of_vec(names),
        variadic,
        body: list(alloc, body)?,
    })
}

/// The tokens as in a row; `bad` for none, and `nothing` for no token.
fn shown(alloc: Global, given: Option<Items<Marked>>) -> Result<Vec<u8>, NoMemory> {
    let mut text = Vec::new(alloc);
    let Some(given) = given else {
        text.extend_from_slice(b"bad")?;
        return Ok(text);
    };
    for marked in given.as_slice() {
        if !text.is_empty() {
            text.push(b'|')?;
        }
        if marked.tok.space {
            text.push(b' ')?;
        }
        text.extend_from_slice(marked.tok.text.as_slice())?;
    }
    if text.is_empty() {
        text.extend_from_slice(b"nothing")?;
    }
    Ok(text)
}

/// Fails where the texts differ.
fn same(got: &[u8], want: &str) -> Result<(), Fail> {
    if got == want.as_bytes() {
        Ok(())
    } else {
        Err(Fail::from("another text"))
    }
}

/// What the call puts in for its name.
fn put_in(alloc: Global, name: &str, call: &str) -> Result<Option<Items<Marked>>, Fail> {
    let Some((params, rest)) = call.split_once('/') else {
        return Err(Fail::from("no call"));
    };
    let Some((body, given)) = rest.split_once('/') else {
        return Err(Fail::from("no argument"));
    };
    let mut sets = HideSets::new(alloc);
    let definition = definition(alloc, params, body)?;
    let args = args(alloc, given)?;
    let name = token(alloc, NAME, name)?;
    let definition = IndexedDef::new(alloc, &definition)?;
    Ok(substitute_function(alloc, &mut sets, &definition, args.as_slice(), &name)?)
}

/// Fails where the call doesn't give these tokens.
fn gives(alloc: Global, call: &str, want: &str) -> Result<(), Fail> {
    let given = put_in(alloc, "F", call)?;
    same(shown(alloc, given)?.as_slice(), want)
}

/// Each row has a call, and the tokens that it gives.
fn all_give(alloc: Global, rows: &str) -> Result<(), Fail> {
    for row in rows.split('\n') {
        let Some((call, want)) = row.split_once(" => ") else {
            return Err(Fail::from("no row"));
        };
        gives(alloc, call, want)?;
    }
    Ok(())
}
