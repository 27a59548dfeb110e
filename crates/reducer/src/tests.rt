use crate::*;
use macro_table::Macros;
use pp_lexer::lines;
use scan_model::{Def, Dialect, Directive, Line, Skip};
use std::alloc::Global;
use std::process::Abort;
use std::sync::Arc;
use std::test::Fail;

// A line that is kept, with its tokens' spellings between bars.
#[derive(Clone, Copy)]
struct Want {
    line: u32,
    next: u32,
    spelled: &'static [u8],
}

fn kept(line: u32, next: u32, spelled: &'static [u8]) -> Want {
    Want {
        line,
        next,
        spelled,
    }
}

// The text is reduced to these lines, and each is that of its number among all its lines.
fn reduces(rt: &impl Abort, alloc: Global, text: &[u8], want: &[Want]) -> Result<(), Fail> {
    if text.len() > 1000 {
        return Err("long".into());
    }
    let reduced = reduce(alloc, text).ok().ok_or("memory")?;
    let mut wanted = want.iter();
    for k in 0..reduced.len() {
        let Some(&row) = wanted.next() else {
            return Err("too many lines".into());
        };
        is_row(rt, alloc, &reduced, k, row)?;
    }
    assert!(rt; wanted.next().is_none());
    let all = lines(alloc, text).ok().ok_or("memory")?;
    let mut place = 0;
    for line in all.as_slice() {
        if place < reduced.len() && reduced.line(place).line == line.line {
            is_line(rt, &reduced, place, line)?;
            place = place.saturating_add(1);
        }
    }
    assert_eq!(rt; place, reduced.len());
    Ok(())
}

// The line of this place is that of the row.
fn is_row(
    rt: &impl Abort,
    alloc: Global,
    reduced: &Reduced,
    k: u32,
    row: Want,
) -> Result<(), Fail> {
    if k >= reduced.len() {
        return Err("too few lines".into());
    }
    let head = reduced.line(k);
    assert_eq!(rt; head.line, row.line);
    assert_eq!(rt; head.next, row.next);
    let mut spelled = Vec::new(alloc);
    for i in 0..reduced.tok_count(k) {
        if i > 0 {
            spelled.push(b'|')?;
        }
        spelled.extend_from_slice(reduced.tok(k, i).text)?;
    }
    assert_eq!(rt; spelled.as_slice(), row.spelled);
    Ok(())
}

// The line of this place is that line.
fn is_line(rt: &impl Abort, reduced: &Reduced, k: u32, line: &Line) -> Result<(), Fail> {
    if k >= reduced.len() {
        return Err("too few lines".into());
    }
    let head = reduced.line(k);
    assert_eq!(rt; head.line, line.line);
    assert_eq!(rt; head.next, line.next);
    let mut i = 0;
    for tok in line.toks.as_slice() {
        if i >= reduced.tok_count(k) {
            return Err("too few tokens".into());
        }
        let view = reduced.tok(k, i);
        assert_eq!(rt; view.kind, tok.kind);
        assert_eq!(rt; view.text, tok.text.as_slice());
        assert_eq!(rt; view.space, tok.space);
        assert_eq!(rt; view.line, tok.line);
        i += 1;
    }
    assert_eq!(rt; i, reduced.tok_count(k));
    Ok(())
}

#[test]
fn directives_are_kept(rt: HostRuntime) -> Result<(), Fail> {
    let alloc = rt.alloc();
    reduces(&rt, alloc, b"", &[])?;
    reduces(&rt, alloc, b"int x;\n", &[])?;
    reduces(&rt, alloc, b"#define X 1\n", &[kept(1, 2, b"#|define|X|1")])?;
    reduces(&rt, alloc, b"  #\tdefine X", &[kept(1, 2, b"#|define|X")])?;
    reduces(&rt, alloc, b"#\n#", &[kept(1, 2, b"#"), kept(2, 3, b"#")])?;
    reduces(&rt, alloc, b"\x0B\x0C #\n", &[kept(1, 2, b"#")])?;
    reduces(&rt, alloc, b"%: define X\n", &[kept(1, 2, b"%:|define|X")])?;
    reduces(
        &rt,
        alloc,
        b"%\\\n:define X\n",
        &[kept(1, 3, b"%:|define|X")],
    )?;
    reduces(&rt, alloc, b"%:%: define\n", &[])?;
    reduces(&rt, alloc, b"## x\n", &[])
}

#[test]
fn import_lines_are_kept(rt: HostRuntime) -> Result<(), Fail> {
    let alloc = rt.alloc();
    reduces(&rt, alloc, b"import a.b;", &[kept(1, 2, b"import|a|.|b|;")])?;
    reduces(&rt, alloc, b"\rimport a;\n", &[kept(1, 2, b"import|a|;")])?;
    reduces(
        &rt,
        alloc,
        b"export import a;\n",
        &[kept(1, 2, b"export|import|a|;")],
    )?;
    reduces(&rt, alloc, b"export import (x);\n", &[])?;
    reduces(
        &rt,
        alloc,
        b"import (x);\nimport <a b>;\n",
        &[kept(2, 3, b"import|<a b>|;")],
    )?;
    reduces(
        &rt,
        alloc,
        b"import \"h\";\nimport :p;\n",
        &[kept(1, 2, b"import|\"h\"|;"), kept(2, 3, b"import|:|p|;")],
    )?;
    reduces(
        &rt,
        alloc,
        b"import <a\nimport = 3;\n",
        &[kept(1, 2, b"import|<|a")],
    )?;
    reduces(&rt, alloc, b"import\n<a>;\n", &[])?;
    reduces(&rt, alloc, b"import and;\nimport 'c';\n", &[])?;
    reduces(
        &rt,
        alloc,
        b"import L\"x\";\n",
        &[kept(1, 2, b"import|L\"x\"|;")],
    )?;
    reduces(
        &rt,
        alloc,
        b"import \xC3\xA9;\nimport \xFF;\n",
        &[kept(1, 2, b"import|\xC3\xA9|;")],
    )?;
    reduces(&rt, alloc, b"import a\\", &[kept(1, 2, b"import|a|\\")])
}

#[test]
fn module_lines_are_kept(rt: HostRuntime) -> Result<(), Fail> {
    let alloc = rt.alloc();
    reduces(
        &rt,
        alloc,
        b"export module m:p;\n",
        &[kept(1, 2, b"export|module|m|:|p|;")],
    )?;
    reduces(&rt, alloc, b"export class c;\n", &[])?;
    reduces(
        &rt,
        alloc,
        b"export\nmodule m;\n",
        &[kept(2, 3, b"module|m|;")],
    )?;
    reduces(
        &rt,
        alloc,
        b"module = 3;\nmodule;\n",
        &[kept(2, 3, b"module|;")],
    )?;
    reduces(
        &rt,
        alloc,
        b"module :private;\nmodule(x);\n",
        &[kept(1, 2, b"module|:|private|;")],
    )?;
    reduces(&rt, alloc, b"modules x;\nimportant y;\nexported z;\n", &[])?;
    reduces(&rt, alloc, b"module\nx;\n", &[])
}

#[test]
fn comments_and_splices_may_hold_newlines(rt: HostRuntime) -> Result<(), Fail> {
    let alloc = rt.alloc();
    reduces(
        &rt,
        alloc,
        b"/* a\nb */ #define X\n",
        &[kept(2, 3, b"#|define|X")],
    )?;
    reduces(&rt, alloc, b"int i; /* #define\n */ import a;\n", &[])?;
    reduces(
        &rt,
        alloc,
        b"int i; /*\n*/\nimport a;\n",
        &[kept(3, 4, b"import|a|;")],
    )?;
    reduces(
        &rt,
        alloc,
        b"import a; /*\n*/ import b;\nimport c;\n",
        &[
            kept(1, 3, b"import|a|;|import|b|;"),
            kept(3, 4, b"import|c|;"),
        ],
    )?;
    reduces(
        &rt,
        alloc,
        b"// import a; \\\nimport b;\nimport c;\n",
        &[kept(3, 4, b"import|c|;")],
    )?;
    reduces(
        &rt,
        alloc,
        b"/* x *\\\n/\nimport a;\n",
        &[kept(3, 4, b"import|a|;")],
    )?;
    reduces(&rt, alloc, b"/* unclosed\nimport a;\n", &[])?;
    reduces(&rt, alloc, b"#def\\\nine X\n", &[kept(1, 3, b"#|define|X")])?;
    reduces(&rt, alloc, b"imp\\\nort a;\n", &[kept(1, 3, b"import|a|;")])?;
    reduces(
        &rt,
        alloc,
        b"e\\\nxport mod\\\nule m;\n",
        &[kept(1, 4, b"export|module|m|;")],
    )?;
    reduces(&rt, alloc, b"\\\nimport a;\n", &[kept(2, 3, b"import|a|;")])?;
    reduces(
        &rt,
        alloc,
        b"\xEF\xBB\xBFimport a;\r\nimport b;\r\n",
        &[kept(1, 2, b"import|a|;"), kept(2, 3, b"import|b|;")],
    )
}

#[test]
fn runs_of_tokens_end_with_their_line(rt: HostRuntime) -> Result<(), Fail> {
    let alloc = rt.alloc();
    reduces(
        &rt,
        alloc,
        b"0123456789abcdef\nimport a;\n",
        &[kept(2, 3, b"import|a|;")],
    )?;
    reduces(
        &rt,
        alloc,
        b"0123456789 abcd/*\n*/ x\nimport a;\n",
        &[kept(3, 4, b"import|a|;")],
    )?;
    reduces(
        &rt,
        alloc,
        b"f(x) + y;'\nimport a;\n",
        &[kept(2, 3, b"import|a|;")],
    )?;
    reduces(
        &rt,
        alloc,
        b"f(x); \\\n#define X\nimport a;\n",
        &[kept(3, 4, b"import|a|;")],
    )?;
    reduces(
        &rt,
        alloc,
        b"import a;\nf(x); y",
        &[kept(1, 2, b"import|a|;")],
    )
}

#[test]
fn quotes_end_with_their_line(rt: HostRuntime) -> Result<(), Fail> {
    let alloc = rt.alloc();
    reduces(
        &rt,
        alloc,
        b"#if 0\ndon't /*\n#endif\nimport a;\n",
        &[
            kept(1, 2, b"#|if|0"),
            kept(3, 4, b"#|endif"),
            kept(4, 5, b"import|a|;"),
        ],
    )?;
    reduces(
        &rt,
        alloc,
        b"\"unclosed\nimport a;\n",
        &[kept(2, 3, b"import|a|;")],
    )?;
    reduces(
        &rt,
        alloc,
        b"'\\\nimport a;\nimport b;\n",
        &[kept(3, 4, b"import|b|;")],
    )?;
    reduces(
        &rt,
        alloc,
        b"x = 1'000'000; 'c'\nimport a;\n",
        &[kept(2, 3, b"import|a|;")],
    )?;
    reduces(
        &rt,
        alloc,
        b"FOOR\"(\"\nimport a;\nx = \")\";\n",
        &[kept(2, 3, b"import|a|;")],
    )
}

#[test]
fn raw_strings_hold_newlines(rt: HostRuntime) -> Result<(), Fail> {
    let alloc = rt.alloc();
    reduces(
        &rt,
        alloc,
        b"auto s = R\"x(\n#define import x\n)x\";\nimport a;\n",
        &[kept(4, 5, b"import|a|;")],
    )?;
    reduces(
        &rt,
        alloc,
        b"R\"(\nimport a;\n)\" R\"d(\n)\")d\"\nimport b;\n",
        &[kept(5, 6, b"import|b|;")],
    )?;
    reduces(
        &rt,
        alloc,
        b"u8R\"(\n#if\n)\"; LR\"(\n#else\n)\"\n#endif\n",
        &[kept(6, 7, b"#|endif")],
    )?;
    reduces(
        &rt,
        alloc,
        b"R\"0123456789abcdefg(\n#if\n)0123456789abcdefg\"\n",
        &[kept(2, 3, b"#|if")],
    )?;
    reduces(
        &rt,
        alloc,
        b"auto s = R\"ab()a\")ab\";\nimport a;\n",
        &[kept(2, 3, b"import|a|;")],
    )?;
    reduces(&rt, alloc, b"R\"(\nimport a;", &[])?;
    reduces(
        &rt,
        alloc,
        b"#define S \"a\\\nb\" R\"(\\\n)\" c\n",
        &[kept(1, 4, b"#|define|S|\"ab\"|R\"(\\\n)\"|c")],
    )
}

#[test]
fn header_names_hold_slashes(rt: HostRuntime) -> Result<(), Fail> {
    let alloc = rt.alloc();
    reduces(
        &rt,
        alloc,
        b"#include <a//b> // c\n",
        &[kept(1, 2, b"#|include|<a//b>")],
    )?;
    reduces(
        &rt,
        alloc,
        b"#include \"a\\\nb\"\n",
        &[kept(1, 3, b"#|include|\"ab\"")],
    )?;
    reduces(
        &rt,
        alloc,
        b"#if __has_include(<a//b>)\n",
        &[kept(1, 2, b"#|if|__has_include|(|<a//b>|)")],
    )?;
    reduces(
        &rt,
        alloc,
        b"#include_next <a//b> // c\n#if __has_include_next(<a//b>)\n",
        &[
            kept(1, 2, b"#|include_next|<a//b>"),
            kept(2, 3, b"#|if|__has_include_next|(|<a//b>|)"),
        ],
    )?;
    reduces(
        &rt,
        alloc,
        b"x __has_include(<a//b>)\nimport a;\n",
        &[kept(2, 3, b"import|a|;")],
    )
}

#[test]
fn header_names_may_lack_their_end(rt: HostRuntime) -> Result<(), Fail> {
    let alloc = rt.alloc();
    reduces(
        &rt,
        alloc,
        b"#if __has_include(<a __has_include(<b\n",
        &[kept(1, 2, b"#|if|__has_include|(|<|a|__has_include|(|<|b")],
    )?;
    reduces(
        &rt,
        alloc,
        b"#if __has_include(<a __has_include(<b /*\n*/ __has_include(<c>)\n",
        &[kept(
            1,
            3,
            b"#|if|__has_include|(|<|a|__has_include|(|<|b|__has_include|(|<c>|)",
        )],
    )?;
    reduces(
        &rt,
        alloc,
        b"#if __has_include(<>) && __has_include(<a>)\n",
        &[kept(1, 2, b"#|if|__has_include|(|<|>|)|&&|__has_include|(|<a>|)")],
    )
}

#[test]
fn an_answer_is_shared(rt: HostRuntime) -> Result<(), Fail> {
    let alloc = rt.alloc();
    let reduced = reduce(alloc, b"x\nimport a;\n").ok().ok_or("memory")?;
    let lines = Arc::new(alloc, reduced).ok().ok_or("memory")?;
    let shared = Answer::Lines(lines).share().ok().ok_or("owners")?;
    let Answer::Lines(lines) = shared else {
        return Err("other".into());
    };
    assert_eq!(rt; lines.len(), 1);
    assert_eq!(rt; Answer::Big.share().is_ok(), true);
    Ok(())
}

// Where the lines after the first one lead.
#[derive(Clone, Copy)]
struct Leads {
    text: &'static [u8],
    older: Skip,
    newer: Skip,
}

fn leads_as_told(rt: &impl Abort, alloc: Global, row: Leads) -> Result<(), Fail> {
    if row.text.len() > 1000 {
        return Err("long".into());
    }
    let reduced = reduce(alloc, row.text).ok().ok_or("memory")?;
    if reduced.len() == 0 {
        return Err("no line".into());
    }
    assert_eq!(rt; reduced.skip(0, Dialect::Cxx20), row.older);
    assert_eq!(rt; reduced.skip(0, Dialect::Cxx23), row.newer);
    Ok(())
}

fn same(text: &'static [u8], skip: Skip) -> Leads {
    Leads {
        text,
        older: skip,
        newer: skip,
    }
}

#[test]
fn skipped_groups_lead_to_their_partners(rt: HostRuntime) -> Result<(), Fail> {
    let alloc = rt.alloc();
    let rows = [
        same(
            b"#if 0\n#if x\n#endif\n#elif 1\nimport a;\n#endif\n",
            Skip::Partner(3),
        ),
        same(
            b"#if 0\n#if x\n#else\n#else\n#endif\n#endif\n",
            Skip::Broken(3),
        ),
        same(b"#if 0\n#if x\n#endif\n", Skip::Open(0)),
        same(b"#if 0\n#if x\n", Skip::Open(1)),
        Leads {
            text: b"#if 0\n#elifdef x\n#endif\n",
            older: Skip::Partner(2),
            newer: Skip::Partner(1),
        },
    ];
    for row in rows {
        leads_as_told(&rt, alloc, row)?;
    }
    Ok(())
}

#[test]
fn definitions_are_shared(rt: HostRuntime) -> Result<(), Fail> {
    let alloc = rt.alloc();
    let reduced = reduce(alloc, b"#define F(a) a b\n#define 3\n")
        .ok()
        .ok_or("memory")?;
    let mut macros = Macros::new(alloc).ok().ok_or("memory")?;
    assert_eq!(rt; define(&reduced, 0, &mut macros)?, true);
    match macros.get(b"F") {
        Some(Def::Function(f)) => assert_eq!(rt; f.body.as_slice().len(), 2),
        _ => return Err("no function".into()),
    }
    assert_eq!(rt; define(&reduced, 1, &mut macros)?, false);
    Ok(())
}

// Gives the table the line's definition. The answer is false for a bad one.
fn define(reduced: &Reduced, k: u32, macros: &mut Macros) -> Result<bool, Fail> {
    if k >= reduced.len() {
        return Err("no line".into());
    }
    if !matches!(reduced.directive(k, Dialect::Cxx20), Directive::Define) {
        return Err("no #define".into());
    }
    let Some(found) = reduced.define(k) else {
        return Ok(false);
    };
    macros
        .define_shared(found.name, found.def)
        .ok()
        .ok_or("memory")?;
    Ok(true)
}
