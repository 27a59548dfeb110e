use super::*;
use scan_model::Kind::{Char, Ident, Number, Punct, Str};
use scan_model::{Bytes, Kind, NoMemory, Tok};
use std::alloc::Global;
use std::process::Abort;
use std::test::Fail;

fn token(alloc: Global, spelling: &[u8], space: bool, line: u32) -> Result<Tok, NoMemory> {
    Ok(Tok {
        kind: kind_of(spelling).unwrap_or(Kind::Stray),
        text: Bytes::copy(alloc, spelling)?,
        space,
        line,
    })
}

// The two join to one token of this kind and spelling, with the line and the space of the left one.
fn joins(
    rt: &impl Abort,
    alloc: Global,
    left: &[u8],
    right: &[u8],
    kind: Kind,
    spelling: &[u8],
) -> Result<(), Fail> {
    let left = token(alloc, left, true, 7)?;
    let right = token(alloc, right, false, 8)?;
    let Some(found) = paste(alloc, &left, &right)? else {
        return Err("no token".into());
    };
    assert_eq!(rt; found.kind, kind);
    assert_eq!(rt; found.text.as_slice(), spelling);
    assert!(rt; found.space);
    assert_eq!(rt; found.line, 7);
    Ok(())
}

fn joins_to_none(rt: &impl Abort, alloc: Global, left: &[u8], right: &[u8]) -> Result<(), Fail> {
    let left = token(alloc, left, false, 1)?;
    let right = token(alloc, right, false, 1)?;
    let found = paste(alloc, &left, &right)?;
    assert!(rt; found.is_none());
    Ok(())
}

#[test]
fn punctuators_and_words_join(rt: HostRuntime) -> Result<(), Fail> {
    let alloc = rt.alloc();
    joins(&rt, alloc, b"<", b"<=", Punct, b"<<=")?;
    joins(&rt, alloc, b".", b"..", Punct, b"...")?;
    joins(&rt, alloc, b"%:", b"%:", Punct, b"%:%:")?;
    joins(&rt, alloc, b"-", b">*", Punct, b"->*")?;
    joins(&rt, alloc, b"a", b"nd", Punct, b"and")?;
    joins(&rt, alloc, b"and", b"x", Ident, b"andx")?;
    joins(&rt, alloc, b"x", b"1", Ident, b"x1")?;
    joins(&rt, alloc, b"\xc3", b"\xa9", Ident, b"\xc3\xa9")
}

#[test]
fn numbers_and_literals_join(rt: HostRuntime) -> Result<(), Fail> {
    let alloc = rt.alloc();
    joins(&rt, alloc, b"1", b"x", Number, b"1x")?;
    joins(&rt, alloc, b"1e", b"+", Number, b"1e+")?;
    joins(&rt, alloc, b"0", b"'1", Number, b"0'1")?;
    joins(&rt, alloc, b"L", b"'a'", Char, b"L'a'")?;
    joins(&rt, alloc, b"u8", b"\"x\"", Str, b"u8\"x\"")?;
    joins(&rt, alloc, b"\"x\"", b"and", Str, b"\"x\"and")?;
    joins(&rt, alloc, b"R", b"\"(a)\"", Str, b"R\"(a)\"")
}

#[test]
fn others_do_not_join(rt: HostRuntime) -> Result<(), Fail> {
    let alloc = rt.alloc();
    joins_to_none(&rt, alloc, b"/", b"/")?;
    joins_to_none(&rt, alloc, b".", b".")?;
    joins_to_none(&rt, alloc, b"<:", b":")?;
    joins_to_none(&rt, alloc, b"1", b"+")?;
    joins_to_none(&rt, alloc, b"0", b"'1'")?;
    joins_to_none(&rt, alloc, b"x", b"'a'")?;
    joins_to_none(&rt, alloc, b"<", b"a>")?;
    joins_to_none(&rt, alloc, b"\"x\"", b"1")
}

#[test]
fn words_and_numbers_have_their_kinds(rt: HostRuntime) -> Result<(), Fail> {
    assert_eq!(rt; kind_of(b""), None);
    assert_eq!(rt; kind_of(b"$1_"), Some(Ident));
    assert_eq!(rt; kind_of(b"_\xc3\xa9"), Some(Ident));
    assert_eq!(rt; kind_of(b"a\xff"), None);
    assert_eq!(rt; kind_of(b"and_eq"), Some(Punct));
    assert_eq!(rt; kind_of(b".5"), Some(Number));
    assert_eq!(rt; kind_of(b"1'e+5"), Some(Number));
    assert_eq!(rt; kind_of(b"1''0"), None);
    assert_eq!(rt; kind_of(b"1+5"), None);
    Ok(())
}

#[test]
fn literals_have_their_kinds(rt: HostRuntime) -> Result<(), Fail> {
    assert_eq!(rt; kind_of(b"''"), Some(Char));
    assert_eq!(rt; kind_of(b"'\\''"), Some(Char));
    assert_eq!(rt; kind_of(b"'\\'"), None);
    assert_eq!(rt; kind_of(b"\"a\nb\""), None);
    assert_eq!(rt; kind_of(b"R\"(a\nb)\""), Some(Str));
    assert_eq!(rt; kind_of(b"R\"(a)b)\""), Some(Str));
    assert_eq!(rt; kind_of(b"R\"(a)\"b)\""), None);
    assert_eq!(rt;
        kind_of(b"LR\"0123456789abcdef()0123456789abcdef\"_s"),
        Some(Str)
    );
    assert_eq!(rt; kind_of(b"R\"0123456789abcdefg()0123456789abcdefg\""), None);
    Ok(())
}

#[test]
fn each_class_has_a_spelling(rt: HostRuntime) -> Result<(), Fail> {
    assert!(rt; is_ident(b"x"));
    assert!(rt; is_number(b"0"));
    assert!(rt; is_char(b"u'x'"));
    assert!(rt; is_str(b"UR\"x()x\""));
    assert!(rt; is_punct(b"<=>"));
    Ok(())
}
