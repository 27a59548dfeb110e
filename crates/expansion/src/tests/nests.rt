use super::*;

/// So many calls of the macro, one inside the other, with 1 in the innermost; these words end each.
fn nest(alloc: Global, depth: u32, name: &str, end: &str) -> Result<Vec<Tok>, NoMemory> {
    let mut toks = Vec::new(alloc);
    for _ in 0..depth {
        toks.push(token(alloc, name)?)?;
        toks.push(token(alloc, "(")?)?;
    }
    toks.push(token(alloc, "1")?)?;
    for _ in 0..depth {
        for word in end.split_whitespace() {
            toks.push(token(alloc, word)?)?;
        }
    }
    Ok(toks)
}

/// Fails where the nest doesn't give these words.
fn gives(alloc: Global, macros: &Macros, toks: &[Tok], want: &str) -> Result<(), Fail> {
    let site = Site {
        file: Bytes::copy(alloc, b"\"f.cpp\"")?,
        shift: 0,
    };
    let found = expand(alloc, macros, &site, Mode::Line, toks)?;
    let text = shown(alloc, &found)?;
    if text.as_slice() == want.as_bytes() {
        Ok(())
    } else {
        Err(Fail::from("other tokens"))
    }
}

#[test]
fn nests_cost_what_their_replacements_cost(rt: HostRuntime) -> Result<(), Fail> {
    let alloc = rt.alloc();
    let mut macros = Macros::new(alloc)?;
    define(alloc, &mut macros, "f ( x ) x")?;
    define(alloc, &mut macros, "g ( x , y ) x")?;
    define(alloc, &mut macros, "s ( x ) x # x")?;
    let calls = nest(alloc, 100_000, "f", ")")?;
    gives(alloc, &macros, calls.as_slice(), "1")?;
    let calls = nest(alloc, 10_000, "g", ", 2 )")?;
    gives(alloc, &macros, calls.as_slice(), "1")?;
    let calls = nest(alloc, 2, "s", ")")?;
    gives(alloc, &macros, calls.as_slice(), "1 \"1\" \"s( 1 )\"")
}
