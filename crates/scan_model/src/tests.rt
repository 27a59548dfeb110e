use crate::{Bytes, Form, Items, Kind, PathText, Text, Tok, has_opt};
use std::test::Fail;

#[test]
fn lists_hold_what_they_are_given(rt: HostRuntime) -> Result<(), Fail> {
    let alloc = rt.alloc();
    let bytes = Bytes::copy(alloc, b"a\xffb").ok().ok_or("memory")?;
    assert_eq!(rt; bytes.as_slice(), b"a\xffb".as_slice());
    assert!(rt;
        Text::read(alloc, bytes.as_slice())
            .ok()
            .ok_or("memory")?
            .is_none()
    );
    let text = Text::read(alloc, "dé".as_bytes()).ok().ok_or("memory")?;
    assert_eq!(rt; text.ok_or("UTF-8")?.as_slice(), b"d\xc3\xa9".as_slice());
    let mut items = Items::new(alloc);
    for n in [3u32, 1, 2] {
        assert!(rt; items.push(n).is_ok());
    }
    assert_eq!(rt; items.as_slice(), [3, 1, 2].as_slice());
    assert_eq!(rt; Items::of_vec(items.into_vec()).as_slice().len(), 3);
    Ok(())
}

// A token, and which of the tests it passes, in the order of `answers`.
#[derive(Clone, Copy)]
struct Row {
    kind: Kind,
    text: &'static [u8],
    passes: [bool; 12],
}

fn answers(tok: &Tok) -> [bool; 12] {
    [
        tok.is_ident(),
        tok.is_named(b"name"),
        tok.is_opt(),
        tok.is_hash(),
        tok.is_paste(),
        tok.is_comma(),
        tok.is_open_paren(),
        tok.is_close_paren(),
        tok.is_plain_string(),
        tok.is_header(),
        tok.is_less(),
        tok.is_greater(),
    ]
}

macro_rules! rows {
    ($($kind:ident $text:literal => $($passes:literal)*),* $(,)?) => {
        [$(Row { kind: Kind::$kind, text: $text, passes: [$($passes),*] }),*]
    };
}

const ROWS: [Row; 14] = rows![
    Ident b"name" => true true false false false false false false false false false false,
    Ident b"__VA_OPT__" => true false true false false false false false false false false false,
    Stray b"name" => false false false false false false false false false false false false,
    Punct b"%:" => false false false true false false false false false false false false,
    Punct b"##" => false false false false true false false false false false false false,
    Punct b"," => false false false false false true false false false false false false,
    Punct b"(" => false false false false false false true false false false false false,
    Punct b")" => false false false false false false false true false false false false,
    Str b"\"a\"" => false false false false false false false false true false false false,
    Str b"L\"a\"" => false false false false false false false false false false false false,
    Str b"\"a\"_s" => false false false false false false false false false false false false,
    Header b"<a>" => false false false false false false false false false true false false,
    Punct b"<" => false false false false false false false false false false true false,
    Punct b">" => false false false false false false false false false false false true,
];

#[test]
fn tokens_are_what_they_are_spelled(rt: HostRuntime) -> Result<(), Fail> {
    let alloc = rt.alloc();
    for row in ROWS {
        let tok = Tok {
            kind: row.kind,
            text: Bytes::copy(alloc, row.text)?,
            space: true,
            line: 7,
        };
        let copy = tok.copy(alloc)?;
        assert_eq!(rt; answers(&copy).as_slice(), row.passes.as_slice());
        assert!(rt; copy.space && copy.line == 7);
    }
    Ok(())
}

#[test]
fn parentheses_are_counted(rt: HostRuntime) -> Result<(), Fail> {
    let alloc = rt.alloc();
    let rows = [
        (b"(".as_slice(), 0, 1),
        (b")", 2, 1),
        (b")", 0, 0),
        (b",", 1, 1),
    ];
    for (text, before, after) in rows {
        let tok = Tok {
            kind: Kind::Punct,
            text: Bytes::copy(alloc, text)?,
            space: false,
            line: 1,
        };
        assert_eq!(rt; tok.depth_after(before), after);
        assert!(rt; !has_opt(&[tok]));
    }
    assert!(rt; matches!(Form::of(b"<a>"), Form::Angled));
    assert!(rt; matches!(Form::of(b"\"a\""), Form::Quoted));
    Ok(())
}
