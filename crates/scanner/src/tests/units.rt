//! Units worked out by hand, each run through the top call: what they require or provide, or their fault.
use super::inputs::NO_RULES;
use super::{WORDS, outside, script, words_of};
use crate::{Ended, scan_alone};
use file_source::{MemorySink, MemorySource};
use scan_model::Items;
use std::alloc::Global;
use std::process::Abort;
use std::test::Fail;

// A row has the arguments, the files and what the unit `u.cpp` gives: what its record requires or provides, and how many
// paths were asked, or its fault. A file is its name below /p, a blank and its text, in which "`" ends a line; `!failed`
// can't be read.
const WORKED: &str = "\
-c => u.cpp auto s = R\"x(`#define import x`)x\";`import a; => requires a
-c => u.cpp FOOR\"(\"`import a;`x = \")\"; => requires a
-c => u.cpp int a\\`;`/* one`two`three */`x`#if __LINE__ == 7`import seven;`#endif => requires seven
-c => u.cpp #define EMPTY`#define NAME(...) a ## __VA_OPT__(b)`export module NAME(EMPTY); => provides a
-c => u.cpp #define EMPTY`#define NAME(...) a ## __VA_OPT__(b)`export module NAME(1); => provides ab
-c => u.cpp #define f(a) a*g`#define g(a) f(a)`#if f(2)(9) == 0`import yes;`#endif => requires yes
-c => u.cpp #if 0`don't /*`#endif`import a; => requires a
-c => u.cpp #if 1 || 1/0`import a;`#endif => requires a
-c => u.cpp #if 1 || 1/0`import a;`#endif`#if 1/0`#endif => /p/u.cpp:4: DivisionByZero
-c => u.cpp #include \"u.cpp\" => /p/u.cpp:1: TooDeep
-c => u.cpp #pragma once`#include \"u.cpp\"`import a; => requires a
-c => u.cpp int n = __COUNTER__;`#if defined(__COUNTER__)`import a;`#endif => requires a
-c => u.cpp int n = __COUNTER__;`#if defined(__COUNTER__)`import a;`#endif`#if __COUNTER__`#endif => /p/u.cpp:5: CounterUsed
-c => u.cpp #line 100`#if __LINE__ == 100`import a;`#endif => requires a
-c => u.cpp #define import x`import a; => /p/u.cpp:2: KeywordIsMacro
-c => u.cpp #define A 1`#pragma push_macro(\"A\")`#undef A`#pragma pop_macro(\"A\")`#if A`import a;`#endif => requires a
-I inc => u.cpp #define H <v.h>`#include H`#include \"v.h\"`#include \"k.h\"`@inc/v.h import v;`@v.h import w;`@inc/k.h import v;`import k;` => requires v w k";

// Each fault of a unit.
const FAULTS: &str = "\
-c => other.cpp import a; => /p/u.cpp:0: MainMissing
-c => u.cpp !failed => /p/u.cpp:0: ReadFault
-c => u.cpp #include \"s.h\"@s.h !failed => /p/u.cpp:1: ReadFault
-c => u.cpp #if __has_include(\"s.h\")`#endif@s.h !failed => /p/u.cpp:1: ReadFault
-c => u.cpp #include \"none.h\" => /p/u.cpp:1: IncludeNotFound
-c => u.cpp #include 3 => /p/u.cpp:1: IncludeSyntax
-c => u.cpp #define 3 x => /p/u.cpp:1: BadDefine
-c => u.cpp #if (1 => /p/u.cpp:1: BadCondition
-c => u.cpp #if 1 << 64 => /p/u.cpp:1: BadShift
-c => u.cpp #if 1.5 => /p/u.cpp:1: BadNumber
-c => u.cpp #if 1 => /p/u.cpp:1: Unbalanced
-c => u.cpp #error no => /p/u.cpp:1: ErrorDirective
-c => u.cpp #frob => /p/u.cpp:1: UnknownDirective
-c => u.cpp #line x => /p/u.cpp:1: BadLine
-c => u.cpp #define F(a) a`#if F(1 => /p/u.cpp:2: ExpansionFault
-c => u.cpp import a => /p/u.cpp:1: BadModuleLine
-c => u.cpp module A;`module B; => /p/u.cpp:2: SecondModule
-c => u.cpp `import :P;`module M; => /p/u.cpp:2: PartitionOutsideModule
-c => u.cpp import <vector>; => /p/u.cpp:1: HeaderUnit
-c => u.cpp #include \"a.h\"`import b@a.h `#frob => /p/a.h:2: UnknownDirective
-c => u.cpp import b`#error no => /p/u.cpp:1: BadModuleLine
-D3 => u.cpp import a; => <command line>:1: BadDefine
-include n.h => u.cpp import a; => <command line>:1: IncludeNotFound
-DA -UA -include n.h => u.cpp import a; => <command line>:3: IncludeNotFound
-DA -UA -include n.h => u.cpp #ifdef A`import a;`#endif@n.h import n;`#define A => requires n a";

// Groups that aren't taken are passed over, to the next line of their conditional.
const SKIPS: &str = "\
-c => u.cpp #if 0`#if x`#endif`#elif 1`import a;`#endif => requires a
-c => u.cpp #if 0`#if x`#else`#else`#endif`#endif => /p/u.cpp:4: Unbalanced
-c => u.cpp #if 0`#if x`#endif => /p/u.cpp:1: Unbalanced
-c => u.cpp #if 0`#if x => /p/u.cpp:2: Unbalanced
-c => u.cpp #if 1`import a;`#elif 1/0`import b;`#else`import c;`#endif`import d; => requires a d
-c => u.cpp #if 0`#elif 0`#else`import c;`#else => /p/u.cpp:5: Unbalanced
-c => u.cpp #endif => /p/u.cpp:1: Unbalanced
-c => u.cpp #ifndef X`#define X`#include \"u.cpp\"`import a;`#endif => requires a in 1
-c => u.cpp #include \"a.h\"`#if __LINE__ == 2`import a;`#endif@a.h #if 1`#endif` => requires a in 2
-c => u.cpp #if __has_include(\"a.h\") + __has_include(<a.h>) + __has_include(\"b.h\") == 1`import a;`#endif@b.h ` => requires a in 3";

const DIALECTS: &str = "\
-std=c++20 => u.cpp #include \"h.h\"@h.h #if 0`#elifdef __cplusplus`import d;`#endif => record
-std=c++23 => u.cpp #include \"h.h\"@h.h #if 0`#elifdef __cplusplus`import d;`#endif => requires d
-std=c++20 => u.cpp #if 1`#elifdef X`#endif => /p/u.cpp:2: UnknownDirective
-std=c++23 => u.cpp #if 1`#elifdef X`#endif => record
-std=c++23 => u.cpp #if 0`#elifndef 3`#endif => /p/u.cpp:2: BadCondition
-std=gnu++2b => u.cpp #if __cplusplus == 202302L`import a;`#endif => requires a
-std=c++23 -std=c++17 => u.cpp #if __cplusplus == 202302L`import a;`#endif => record";

const NEXT_HEADERS: &str = "\
-I a -I b => u.cpp #include <v.h>`@a/v.h #include_next <v.h>`import a;@b/v.h import b; => requires b a in 3
-I a -I b => u.cpp #include <v.h>`@a/v.h #include_next <v.h>`import a; => /p/a/v.h:1: IncludeNotFound
-I a -I b => u.cpp #include <v.h>`@a/v.h #if __has_include_next(<v.h>)`import yes;`#endif@b/v.h ` => requires yes
-I a -I b => u.cpp #include_next \"w.h\"@w.h import w; => requires w
-I a -I b => u.cpp #define __has_include_next 1 => /p/u.cpp:1: BadDefine";

// The database with one entry, of these arguments.
fn database(alloc: Global, arguments: &str) -> Result<String, Fail> {
    let mut text = String::from_str(
        alloc,
        "/p/db.json\n[{\"directory\":\"/p\",\"file\":\"u.cpp\",\"arguments\":[\"c++\"",
    )?;
    for word in arguments.split_whitespace() {
        text.push_str(",\"")?;
        text.push_str(word)?;
        text.push_str("\"")?;
    }
    text.push_str("]}]")?;
    Ok(text)
}

// Adds the text of a file, whose lines end at "`".
fn add_text(files: &mut String, text: &str) -> Result<(), Fail> {
    let mut is_first = true;
    for line in text.split('`') {
        if !is_first {
            files.push_str("\n")?;
        }
        files.push_str(line)?;
        is_first = false;
    }
    Ok(())
}

fn add_file(files: &mut String, file: &str) -> Result<(), Fail> {
    let (name, text) = file.split_once(' ').unwrap_or((file, ""));
    files.push_str("~/p/")?;
    files.push_str(name)?;
    if text == "!failed" {
        files.push_str(" fails")?;
        return Ok(());
    }
    files.push_str("\n")?;
    add_text(files, text)
}

// The files of a row, in the form that the runs take.
fn files(alloc: Global, row: &str) -> Result<String, Fail> {
    let mut files = String::new(alloc);
    for file in row.split('@') {
        add_file(&mut files, file)?;
    }
    Ok(files)
}

// The document of a record that requires these names, or provides that one.
fn document(alloc: Global, record: &str) -> Result<String, Fail> {
    let mut text = String::from_str(
        alloc,
        "{\n  \"revision\": 0,\n  \"rules\": [\n    {\n      \"primary-output\": \"u.o\"",
    )?;
    if let Some(name) = record.strip_prefix("provides ") {
        text.push_str(
            ",\n      \"provides\": [\n        {\n          \"is-interface\": true,\n          \"logical-name\": \"",
        )?;
        text.push_str(name)?;
        text.push_str("\",\n          \"source-path\": \"/p/u.cpp\"\n        }\n      ]")?;
    }
    if let Some(names) = record.strip_prefix("requires ") {
        add_required(&mut text, names)?;
    }
    text.push_str("\n    }\n  ],\n  \"version\": 1\n}\n")?;
    Ok(text)
}

fn add_required(text: &mut String, names: &str) -> Result<(), Fail> {
    text.push_str(",\n      \"requires\": [\n")?;
    let mut is_first = true;
    for name in names.split(' ') {
        if !is_first {
            text.push_str(",\n")?;
        }
        text.push_str("        {\n          \"logical-name\": \"")?;
        text.push_str(name)?;
        text.push_str("\"\n        }")?;
        is_first = false;
    }
    text.push_str("\n      ]")?;
    Ok(())
}

fn printed_record(
    rt: &impl Abort,
    alloc: Global,
    out: &[u8],
    err: &[u8],
    record: &str,
) -> Result<(), Fail> {
    let document = document(alloc, record)?;
    assert_eq!(rt; err, b"".as_slice());
    assert_eq!(rt; out, document.as_bytes());
    Ok(())
}

fn printed_fault(
    rt: &impl Abort,
    alloc: Global,
    out: &[u8],
    err: &[u8],
    fault: &str,
) -> Result<(), Fail> {
    let mut line = String::from_str(alloc, "command 1: ")?;
    line.push_str(fault)?;
    line.push_str("\n")?;
    assert_eq!(rt; err, line.as_bytes());
    assert_eq!(rt; out, NO_RULES.as_bytes());
    Ok(())
}

fn is_record(outcome: &str) -> bool {
    outcome.starts_with("requires ") || outcome.starts_with("provides ") || outcome == "record"
}

fn printed(
    rt: &impl Abort,
    alloc: Global,
    out: &[u8],
    err: &[u8],
    outcome: &str,
) -> Result<(), Fail> {
    if is_record(outcome) {
        printed_record(rt, alloc, out, err, outcome)
    } else {
        printed_fault(rt, alloc, out, err, outcome)
    }
}

fn asked_as_many(
    rt: &impl Abort,
    alloc: Global,
    ended: &Ended<MemorySource>,
    want: &str,
) -> Result<(), Fail> {
    let paths = ended.outside.store.paths();
    let text = format!(in alloc; "{paths}")?;
    assert_eq!(rt; text.as_bytes(), want.as_bytes());
    Ok(())
}

pub(crate) fn is_as_said(
    rt: &impl Abort,
    alloc: Global,
    arguments: &str,
    row: &str,
    outcome: &str,
) -> Result<(), Fail> {
    let words = words_of(alloc, WORDS)?;
    assert!(rt; words.iter().all(|word| word.len() <= 33_554_432));
    let database = database(alloc, arguments)?;
    let files = files(alloc, row)?;
    let outside = outside(alloc, script(alloc, database.as_str())?, files.as_str())?;
    let mut out = MemorySink::new(alloc, 65_536, Items::new(alloc))?;
    let mut err = MemorySink::new(alloc, 65_536, Items::new(alloc))?;
    let ended = scan_alone(alloc, &words, outside, &mut out, &mut err);
    match outcome.split_once(" in ") {
        Some((end, paths)) => {
            printed(rt, alloc, out.bytes(), err.bytes(), end)?;
            asked_as_many(rt, alloc, &ended, paths)
        }
        None => printed(rt, alloc, out.bytes(), err.bytes(), outcome),
    }
}

fn are_as_said(rt: &impl Abort, alloc: Global, rows: &str) -> Result<(), Fail> {
    for row in rows.split('\n') {
        let Some((arguments, rest)) = row.split_once(" => ") else {
            return Err(Fail::from("a row has arguments"));
        };
        let Some((files, outcome)) = rest.split_once(" => ") else {
            return Err(Fail::from("a row has an outcome"));
        };
        is_as_said(rt, alloc, arguments, files, outcome)?;
    }
    Ok(())
}

#[test]
fn worked_units(rt: HostRuntime) -> Result<(), Fail> {
    are_as_said(&rt, rt.alloc(), WORKED)
}

#[test]
fn faults(rt: HostRuntime) -> Result<(), Fail> {
    are_as_said(&rt, rt.alloc(), FAULTS)
}

#[test]
fn skips(rt: HostRuntime) -> Result<(), Fail> {
    are_as_said(&rt, rt.alloc(), SKIPS)
}

#[test]
fn dialects(rt: HostRuntime) -> Result<(), Fail> {
    are_as_said(&rt, rt.alloc(), DIALECTS)
}

#[test]
fn next_headers(rt: HostRuntime) -> Result<(), Fail> {
    are_as_said(&rt, rt.alloc(), NEXT_HEADERS)
}
