ghost use Rattle.std.specs.Prelude.{◌≤◌, length};
ghost use Rattle.scan_model.specs.Limits.{file_limit};

use super::*;
use line_splice::Cursor;
use std::process::Abort;

// A name of the text's first bytes, up to the place, begins it.
fn name(rt: &impl Abort, text: &[u8], place: usize)
    requires { length text.now ≤ file_limit }
{
    let mut at = Cursor::new(text);
    assert_eq!(rt; begins_name(&at), place > 0);
    pass_name(&mut at);
    assert_eq!(rt; at.raw_from(), place);
}

#[test]
fn names(rt: HostRuntime) {
    name(&rt, b"", 0);
    name(&rt, b"abc1 x", 4);
    name(&rt, b"$a_9'", 4);
    name(&rt, b"1a", 0);
    name(&rt, "é1+".as_bytes(), 3);
    name(&rt, "e\u{301}x".as_bytes(), 4);
    name(&rt, "\u{301}".as_bytes(), 0);
    name(&rt, b"a\\\nb c", 4);
    name(&rt, b"a\xffb", 1);
    name(&rt, b"a\xc3", 1);
}

// A number of the text's first bytes, up to the place, begins it.
fn number(rt: &impl Abort, text: &[u8], place: usize)
    requires { length text.now ≤ file_limit }
{
    let mut at = Cursor::new(text);
    assert_eq!(rt; begins_number(&at), place > 0);
    pass_number(&mut at);
    assert_eq!(rt; at.raw_from(), place);
}

#[test]
fn numbers(rt: HostRuntime) {
    number(&rt, b"1'000'a.b'c+", 11);
    number(&rt, b"0x1.p-3f;", 8);
    number(&rt, b"1e+5-2", 4);
    number(&rt, b"1f+2", 2);
    number(&rt, b".5e ", 3);
    number(&rt, b".e", 0);
    number(&rt, b"..5", 0);
    number(&rt, b"x1", 0);
    number(&rt, b"1''2", 1);
    number(&rt, b"1'+", 1);
    number(&rt, b"1'e+5", 5);
    number(&rt, "1é'é".as_bytes(), 3);
}

// This literal opens at the text's front.
fn opens(rt: &impl Abort, text: &[u8], want: Option<Opening>)
    requires { length text.now ≤ file_limit }
{
    assert!(rt; literal_at(&Cursor::new(text)) == want);
}

#[test]
fn openings(rt: HostRuntime) {
    let single = Some(Opening::Quoted(Quote::Single));
    opens(&rt, b"L'a'", single);
    opens(&rt, b"u\\\n8'a'", single);
    opens(&rt, b"\"", Some(Opening::Quoted(Quote::Double)));
    opens(&rt, b"u8R\"", Some(Opening::Raw));
    opens(&rt, b"R\\\n\"(", Some(Opening::Raw));
    opens(&rt, b"FOOR\"(", None);
    opens(&rt, b"u8 'a'", None);
    opens(&rt, b"uu'a'", None);
    opens(&rt, b"R'a'", None);
    opens(&rt, b"u\n'a'", None);
}

// The literal that opens at the text's front, closed or not, ends at the place.
fn quoted(rt: &impl Abort, text: &[u8], closed: bool, place: usize)
    requires { length text.now ≤ file_limit }
{
    let mut at = Cursor::new(text);
    match literal_at(&at) {
        Some(Opening::Quoted(quote)) => {
            assert_eq!(rt; pass_quoted(&mut at, quote), closed);
            assert_eq!(rt; at.raw_from(), place);
        }
        _ => assert!(rt; false),
    }
}

#[test]
fn quoted_literals(rt: HostRuntime) {
    quoted(&rt, b"'a'b;", true, 4);
    quoted(&rt, b"u8\"x\"_s+", true, 7);
    quoted(&rt, b"\"x\"and", true, 6);
    quoted(&rt, b"U\"\"", true, 3);
    quoted(&rt, b"L'\\''x", true, 6);
    quoted(&rt, b"'a\\\\'", true, 5);
    quoted(&rt, b"\"a\\\nb\"", true, 6);
    quoted(&rt, b"\"a'\nb\"", false, 3);
    quoted(&rt, b"\"a\\\"", false, 4);
}

// A header name of the text's first bytes, up to the place, begins it.
fn header(rt: &impl Abort, text: &[u8], place: usize)
    requires { length text.now ≤ file_limit }
{
    let mut at = Cursor::new(text);
    assert_eq!(rt; pass_header(&mut at), place > 0);
    assert_eq!(rt; at.raw_from(), place);
}

#[test]
fn headers(rt: HostRuntime) {
    header(&rt, b"<v.h> x>", 5);
    header(&rt, b"\"k\"z", 3);
    header(&rt, b"<a//b>", 6);
    header(&rt, b"<a\\\nb>", 6);
    header(&rt, b"<>>", 0);
    header(&rt, b"\"\"", 0);
    header(&rt, b"<a\n>", 0);
    header(&rt, b"\"a", 0);
    header(&rt, b"v.h>", 0);
}

// The character, or the byte, that begins the text ends at the place.
fn character(rt: &impl Abort, text: &[u8], place: usize)
    requires { length text.now ≤ file_limit }
{
    let mut at = Cursor::new(text);
    if let Some(byte) = at.peek() {
        if byte != b'\n' {
            pass_character(&mut at);
        }
    }
    assert_eq!(rt; at.raw_from(), place);
}

#[test]
fn characters(rt: HostRuntime) {
    character(&rt, "éx".as_bytes(), 2);
    character(&rt, "€x".as_bytes(), 3);
    character(&rt, "😀x".as_bytes(), 4);
    character(&rt, b"@", 1);
    character(&rt, b"\xc3x", 1);
    character(&rt, b"\xe2\x82", 1);
    character(&rt, b"\xed\xa0\x80", 1);
    character(&rt, b"\xc3\\\n\xa9x", 4);
}

#[test]
fn bytes_up_to_one_are_passed_at_once(rt: HostRuntime) {
    let mut at = Cursor::new(b"a\nb*c");
    pass_over(&mut at, b'*');
    assert_eq!(rt; at.raw_from(), 3);
    assert_eq!(rt; at.line(), 2);
}

// A raw string begins the text: where it is written from and to, and the place after its suffix.
fn raw(rt: &impl Abort, text: &[u8], closed: bool, written: (usize, usize), place: usize)
    requires { length text.now ≤ file_limit }
{
    let mut at = Cursor::new(text);
    if literal_at(&at) != Some(Opening::Raw) {
        assert!(rt; false);
        return;
    }
    match pass_raw(&mut at) {
        RawSpelling::Written(parts) => {
            assert_eq!(rt; parts.closed, closed);
            assert_eq!(rt; (parts.start, parts.end), written);
            assert_eq!(rt; parts.suffix.raw_from(), written.1);
        }
        RawSpelling::Shown => assert!(rt; false),
    }
    assert_eq!(rt; at.raw_from(), place);
}

// The stray rest of the line begins the text, up to the place.
fn stray(rt: &impl Abort, text: &[u8], place: usize)
    requires { length text.now ≤ file_limit }
{
    let mut at = Cursor::new(text);
    if literal_at(&at) != Some(Opening::Raw) {
        assert!(rt; false);
        return;
    }
    match pass_raw(&mut at) {
        RawSpelling::Written(_) => assert!(rt; false),
        RawSpelling::Shown => {}
    }
    assert_eq!(rt; at.raw_from(), place);
}

#[test]
fn raw_strings(rt: HostRuntime) {
    raw(&rt, b"R\"(a)\"_s+", true, (2, 6), 8);
    raw(&rt, b"u8R\"x(b\\\nc)x\" ;", true, (4, 13), 13);
    raw(&rt, b"R\"x()\" )x\"", true, (2, 10), 10);
    raw(&rt, b"R\\\n\"()\"", true, (4, 7), 7);
    raw(
        &rt,
        b"R\"0123456789abcdef()0123456789abcdef\"",
        true,
        (2, 37),
        37,
    );
    raw(&rt, b"R\"x(b\n", false, (2, 6), 6);
    stray(&rt, b"R\"0123456789abcdefg()0123456789abcdefg\"", 39);
    stray(&rt, b"R\"x y(b)\"\nc", 9);
    stray(&rt, b"LR\"\\\n(x)\"\nb", 9);
}
