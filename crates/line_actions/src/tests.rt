use crate::*;
use reducer::reduce;
use scan_model::{Dialect, FaultKind, Text};
use std::alloc::Global;
use std::process::Abort;
use std::test::Fail;

// What the last line of a text does.
#[derive(Clone, Copy)]
enum Want {
    Goes,
    Skips,
    Sent,
    Refused,
    Stops(FaultKind),
    Includes,
    Tests,
}

#[derive(Clone, Copy)]
struct Row {
    text: &'static [u8],
    want: Want,
}

fn ends_in(text: &'static [u8], want: Want) -> Row {
    Row { text, want }
}

fn stops(text: &'static [u8], kind: FaultKind) -> Row {
    Row {
        text,
        want: Want::Stops(kind),
    }
}

fn is_wanted(action: &Action, want: Want) -> bool {
    match want {
        Want::Goes => matches!(action, Action::Goes),
        Want::Skips => matches!(action, Action::Skips),
        Want::Sent => matches!(action, Action::Sent),
        Want::Refused => matches!(action, Action::Refused(_)),
        Want::Includes => matches!(action, Action::Includes(_, _)),
        Want::Tests => matches!(action, Action::Tests(_)),
        Want::Stops(kind) => match action {
            Action::Stops(found) => *found == kind,
            _ => false,
        },
    }
}

// What the last kept line of the text does, after the others.
fn last_action(alloc: Global, text: &[u8]) -> Result<Action, Fail> {
    if text.len() > 1000 {
        return Err("long".into());
    }
    let lines = reduce(alloc, text).ok().ok_or("memory")?;
    let name = Text::copy(alloc, "u.o").ok().ok_or("memory")?;
    let mut unit = UnitState::new(alloc, Dialect::Cxx23, &name, &name)
        .ok()
        .ok_or("memory")?;
    let mut file = FileState {
        site: None,
        groups: Vec::new(alloc),
        chain_place: None,
    };
    let mut last = Action::Goes;
    for place in 0..lines.len() {
        let at = KeptLine {
            lines: &lines,
            place,
            head: lines.line(place),
            path: b"/u.cpp",
            dialect: Dialect::Cxx23,
        };
        last = act(alloc, &at, &mut file, &mut unit).ok().ok_or("memory")?;
    }
    Ok(last)
}

// The last line of the row's text does what the row says.
fn does(rt: &impl Abort, alloc: Global, row: Row) -> Result<(), Fail> {
    let action = last_action(alloc, row.text)?;
    assert!(rt; is_wanted(&action, row.want));
    Ok(())
}

#[test]
fn a_line_does_what_it_says(rt: HostRuntime) -> Result<(), Fail> {
    let rows = [
        ends_in(b"#define A\n#ifndef A", Want::Skips),
        ends_in(b"#define A\n#undef A\n#ifndef A", Want::Goes),
        ends_in(
            b"#pragma push_macro(\"A\")\n#define A\n#pragma pop_macro(\"A\")\n#ifdef A",
            Want::Skips,
        ),
        ends_in(b"#if 1\n#elif 1 / 0", Want::Skips),
        stops(b"#if 0\n#elif 1 / 0", FaultKind::DivisionByZero),
        stops(b"#if 1\n#else\n#else", FaultKind::Unbalanced),
        ends_in(b"#line 5\n#if __LINE__ == 5", Want::Goes),
        stops(b"#line x", FaultKind::BadLine),
        ends_in(b"#define H <h>\n#include H", Want::Includes),
        stops(b"#include 3", FaultKind::IncludeSyntax),
        ends_in(b"#if __has_include(<a>)", Want::Tests),
        stops(b"#if __has_include(a)", FaultKind::BadCondition),
        stops(b"#define import\nimport a;", FaultKind::KeywordIsMacro),
        ends_in(b"export module M;", Want::Sent),
        ends_in(b"import a", Want::Refused),
        stops(b"%:frob", FaultKind::UnknownDirective),
    ];
    for row in rows {
        does(&rt, rt.alloc(), row)?;
    }
    Ok(())
}

#[test]
fn a_condition_names_what_it_asks_for(rt: HostRuntime) -> Result<(), Fail> {
    let alloc = rt.alloc();
    let action = last_action(alloc, b"#if __has_include_next(\"b.h\") || 0")?;
    let Action::Tests(condition) = action else {
        return Err("no tests".into());
    };
    assert_eq!(rt; condition.tests, 1);
    Ok(())
}
