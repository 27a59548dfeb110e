ghost use Rattle.std.specs.Prelude.{◌≤◌, length};
ghost use Rattle.scan_model.specs.Limits.{file_limit};

use super::*;
use line_splice::Cursor;
use scan_model::{Items, Kind};
use std::alloc::Global;
use std::process::Abort;
use std::test::Fail;

fn letter(kind: Kind) -> u8 {
    match kind {
        Kind::Ident => b'I',
        Kind::Number => b'N',
        Kind::Char => b'C',
        Kind::Str => b'S',
        Kind::Header => b'H',
        Kind::Punct => b'P',
        Kind::Stray => b'X',
        _ => b'?',
    }
}

// The lines of the text, each as its two numbers and its tokens. A token is a space or `|` for none, its kind's letter
// and its spelling.
fn shown(alloc: Global, text: &[u8]) -> Result<Vec<u8>, Fail>
    requires { length text.now ≤ file_limit }
{
    let found = lines(alloc, text).ok().ok_or("memory")?;
    let mut out = Vec::new(alloc);
    for line in found.as_slice() {
        let numbers = format!(in alloc; "{}-{}", line.line, line.next)?;
        out.extend_from_slice(numbers.as_bytes())?;
        for tok in line.toks.as_slice() {
            let space = if tok.space { b' ' } else { b'|' };
            out.extend_from_slice(&[space, letter(tok.kind)])?;
            out.extend_from_slice(tok.text.as_slice())?;
        }
        out.extend_from_slice(b"\n")?;
    }
    Ok(out)
}

fn reads(rt: &impl Abort, alloc: Global, text: &[u8], want: &[u8]) -> Result<(), Fail>
    requires { length text.now ≤ file_limit }
{
    let found = shown(alloc, text)?;
    assert_eq!(rt; found.as_slice(), want);
    Ok(())
}

#[test]
fn newlines_and_splices(rt: HostRuntime) -> Result<(), Fail> {
    let alloc = rt.alloc();
    reads(&rt, alloc, b"", b"")?;
    reads(&rt, alloc, b"\n\n a\n", b"3-4 Ia\n")?;
    reads(&rt, alloc, b"\xEF\xBB\xBFa", b"1-2 Ia\n")?;
    reads(&rt, alloc, b"a\rb\x0Bc\x0Cd", b"1-2 Ia Ib Ic Id\n")?;
    reads(&rt, alloc, b"a\r\nb\r\n", b"1-2 Ia\n2-3 Ib\n")?;
    reads(&rt, alloc, b"a\\\nb<::c", b"1-3 Iab|P<|P::|Ic\n")?;
    reads(&rt, alloc, b"a\\\r\nb \\\n+", b"1-4 Iab P+\n")?;
    reads(&rt, alloc, b"a\\ \nb\\", b"1-2 Ia|X\\\n2-3 Ib|X\\\n")?;
    reads(&rt, alloc, b"a\\\n", b"1-3 Ia\n")
}

#[test]
fn comments(rt: HostRuntime) -> Result<(), Fail> {
    let alloc = rt.alloc();
    reads(&rt, alloc, b"a/**/b/***/c/* * / */d", b"1-2 Ia Ib Ic Id\n")?;
    reads(&rt, alloc, b"/*/b*/c", b"1-2 Ic\n")?;
    reads(&rt, alloc, b"a//b\\\nc\nd", b"1-3 Ia\n3-4 Id\n")?;
    reads(&rt, alloc, b"/\\\n/x\ny", b"3-4 Iy\n")?;
    reads(&rt, alloc, b"a /*\n*/ b\nc", b"1-3 Ia Ib\n3-4 Ic\n")?;
    reads(
        &rt,
        alloc,
        b"/* a\nb */ #define X\n",
        b"2-3 P#|Idefine IX\n",
    )?;
    reads(&rt, alloc, b"a /* b\n", b"1-2 Ia\n")?;
    reads(&rt, alloc, b"/*'*/a//\"\n\"//\"", b"1-2 Ia\n2-3 S\"//\"\n")
}

#[test]
fn names_and_numbers(rt: HostRuntime) -> Result<(), Fail> {
    let alloc = rt.alloc();
    reads(
        &rt,
        alloc,
        b"$_a1 \xC3\xA9t\xC3\xA9",
        b"1-2 I$_a1 I\xC3\xA9t\xC3\xA9\n",
    )?;
    reads(
        &rt,
        alloc,
        b"and_eq android an\\\nd",
        b"1-3 Pand_eq Iandroid Pand\n",
    )?;
    reads(&rt, alloc, b"1'000'a.b'c", b"1-2 N1'000'a.b'c\n")?;
    reads(
        &rt,
        alloc,
        b"1e+5f 1x+5 .5.e-3",
        b"1-2 N1e+5f N1x|P+|N5 N.5.e-3\n",
    )?;
    reads(&rt, alloc, b"1'e+5 0x1P-2", b"1-2 N1'e+5 N0x1P-2\n")?;
    reads(&rt, alloc, b"1\\\n2'", b"1-3 N12|X'\n")?;
    reads(
        &rt,
        alloc,
        b"\xE2\x82\xAC\xFF\x82a@",
        b"1-2 X\xE2\x82\xAC|X\xFF|X\x82|Ia|X@\n",
    )
}

#[test]
fn punctuators(rt: HostRuntime) -> Result<(), Fail> {
    let alloc = rt.alloc();
    reads(&rt, alloc, b"x<:::y<::>", b"1-2 Ix|P<:|P::|Iy|P<:|P:>\n")?;
    reads(&rt, alloc, b"<:\\\n:", b"1-3 P<|P::\n")?;
    reads(&rt, alloc, b"%:%:%:%", b"1-2 P%:%:|P%:|P%\n")?;
    reads(&rt, alloc, b".... ..", b"1-2 P...|P. P.|P.\n")?;
    reads(
        &rt,
        alloc,
        b"a->*b<=>c<<=d+++",
        b"1-2 Ia|P->*|Ib|P<=>|Ic|P<<=|Id|P++|P+\n",
    )
}

#[test]
fn literals(rt: HostRuntime) -> Result<(), Fail> {
    let alloc = rt.alloc();
    reads(&rt, alloc, b"don't /*\nb", b"1-2 Idon|X't /*\n2-3 Ib\n")?;
    reads(&rt, alloc, b"'''\\''u8'a'b", b"1-2 C''|C'\\''u8|C'a'b\n")?;
    reads(&rt, alloc, b"U'a\\", b"1-2 XU'a\\\n")?;
    reads(
        &rt,
        alloc,
        b"x'a'RL\"x\"R'b'",
        b"1-2 Ix|C'a'RL|S\"x\"R|C'b'\n",
    )?;
    reads(
        &rt,
        alloc,
        b"\"x\"and \"\\\\\"",
        b"1-2 S\"x\"and S\"\\\\\"\n",
    )?;
    reads(&rt, alloc, b"\"a\\\"\nb", b"1-2 X\"a\\\"\n2-3 Ib\n")?;
    reads(&rt, alloc, b"L\"a\\\nb\"", b"1-3 SL\"ab\"\n")?;
    reads(
        &rt,
        alloc,
        b"FOOR\"(\"\nimport a;",
        b"1-2 IFOOR|S\"(\"\n2-3 Iimport Ia|P;\n",
    )
}

#[test]
fn raw_strings(rt: HostRuntime) -> Result<(), Fail> {
    let alloc = rt.alloc();
    reads(
        &rt,
        alloc,
        b"u8R\"(x)\"_s+L'a'",
        b"1-2 Su8R\"(x)\"_s|P+|CL'a'\n",
    )?;
    reads(&rt, alloc, b"R\"(a\\\nb)\"x", b"1-3 SR\"(a\\\nb)\"x\n")?;
    reads(
        &rt,
        alloc,
        b"\\\nR\\\n\"(\r\n)\"x\\\ny;",
        b"2-6 SR\"(\r\n)\"xy|P;\n",
    )?;
    reads(&rt, alloc, b"R\"a()b\")a\"", b"1-2 SR\"a()b\")a\"\n")?;
    reads(&rt, alloc, b"R\" (x)\" y\nz", b"1-2 XR\" (x)\" y\n2-3 Iz\n")?;
    reads(
        &rt,
        alloc,
        b"LR\"abcdefghijklmnopq()abcdefghijklmnopq\"",
        b"1-2 XLR\"abcdefghijklmnopq()abcdefghijklmnopq\"\n",
    )?;
    reads(&rt, alloc, b"R\"(x\ny", b"1-3 XR\"(x\ny\n")?;
    reads(&rt, alloc, b"R\"(x\n", b"1-2 XR\"(x\n\n")
}

#[test]
fn header_names(rt: HostRuntime) -> Result<(), Fail> {
    let alloc = rt.alloc();
    reads(&rt, alloc, b"#include <a//b>", b"1-2 P#|Iinclude H<a//b>\n")?;
    reads(
        &rt,
        alloc,
        b"%:include\"a\\\"b",
        b"1-2 P%:|Iinclude|H\"a\\\"|Ib\n",
    )?;
    reads(
        &rt,
        alloc,
        b"import <x>; <y>",
        b"1-2 Iimport H<x>|P; P<|Iy|P>\n",
    )?;
    reads(
        &rt,
        alloc,
        b"export import \"y\"z",
        b"1-2 Iexport Iimport H\"y\"|Iz\n",
    )?;
    reads(&rt, alloc, b"x include <a>", b"1-2 Ix Iinclude P<|Ia|P>\n")?;
    reads(
        &rt,
        alloc,
        b"#if __has_include(<a b>)",
        b"1-2 P#|Iif I__has_include|P(|H<a b>|P)\n",
    )?;
    reads(
        &rt,
        alloc,
        b"%:include_next <a//b>\n#elif __has_include_next(<a b>)",
        b"1-2 P%:|Iinclude_next H<a//b>\n2-3 P#|Ielif I__has_include_next|P(|H<a b>|P)\n",
    )?;
    reads(
        &rt,
        alloc,
        b"#ifdef __has_include(<a>",
        b"1-2 P#|Iifdef I__has_include|P(|P<|Ia|P>\n",
    )?;
    reads(
        &rt,
        alloc,
        b"#include <>\n#include <a",
        b"1-2 P#|Iinclude P<|P>\n2-3 P#|Iinclude P<|Ia\n",
    )?;
    reads(
        &rt,
        alloc,
        b"#if __has_include(<a)+__has_include(<b\n#include <c>",
        b"1-2 P#|Iif I__has_include|P(|P<|Ia|P)|P+|I__has_include|P(|P<|Ib\n2-3 P#|Iinclude H<c>\n",
    )?;
    reads(
        &rt,
        alloc,
        b"#include u8\"x\"",
        b"1-2 P#|Iinclude Su8\"x\"\n",
    )
}

#[test]
fn whole_files(rt: HostRuntime) -> Result<(), Fail> {
    let alloc = rt.alloc();
    reads(
        &rt,
        alloc,
        b"auto s = R\"x(\n#define import x\n)x\";\nimport a;\n",
        b"1-4 Iauto Is P= SR\"x(\n#define import x\n)x\"|P;\n4-5 Iimport Ia|P;\n",
    )?;
    reads(
        &rt,
        alloc,
        b"FOOR\"(\"\nimport a;\nx = \")\";\n",
        b"1-2 IFOOR|S\"(\"\n2-3 Iimport Ia|P;\n3-4 Ix P= S\")\"|P;\n",
    )?;
    reads(
        &rt,
        alloc,
        b"int a\\\n;\n/* one\ntwo\nthree */\nx\n#if __LINE__ == 7\nimport seven;\n#endif\n",
        b"1-3 Iint Ia|P;\n6-7 Ix\n7-8 P#|Iif I__LINE__ P== N7\n8-9 Iimport Iseven|P;\n9-10 P#|Iendif\n",
    )?;
    reads(
        &rt,
        alloc,
        b"#if 0\ndon't /*\n#endif\nimport a;\n",
        b"1-2 P#|Iif N0\n2-3 Idon|X't /*\n3-4 P#|Iendif\n4-5 Iimport Ia|P;\n",
    )
}

#[test]
fn tokens_come_one_by_one(rt: HostRuntime) -> Result<(), Fail> {
    let alloc = rt.alloc();
    let text = b"a+";
    let mut at = Cursor::new(text);
    let mut before = Items::new(alloc);
    let first = token(alloc, text, &mut at, before.as_slice())
        .ok()
        .ok_or("memory")?;
    let first = first.ok_or("no first token")?;
    assert_eq!(rt; first.text.as_slice(), b"a".as_slice());
    before.push(first).ok().ok_or("memory")?;
    let second = token(alloc, text, &mut at, before.as_slice())
        .ok()
        .ok_or("memory")?;
    let second = second.ok_or("no second token")?;
    assert_eq!(rt; second.text.as_slice(), b"+".as_slice());
    before.push(second).ok().ok_or("memory")?;
    let third = token(alloc, text, &mut at, before.as_slice())
        .ok()
        .ok_or("memory")?;
    assert!(rt; third.is_none());
    Ok(())
}
