use super::*;
use std::sync::Arc;

/// Fails where the name's definition isn't what `shown` prints, or `none`.
fn has(rt: &HostRuntime, macros: &Macros, name: &str, want: &str) -> Result<(), Fail> {
    match macros.get(name.as_bytes()) {
        Some(def) => same(shown(rt.alloc(), def)?.as_slice(), want),
        None => same(b"none", want),
    }
}

/// Defines what the words after `define` say.
fn define(rt: &HostRuntime, macros: &mut Macros, words: &str) -> Result<(), Fail> {
    let toks = tokens(rt.alloc(), words)?;
    match read_define(rt.alloc(), toks.as_slice())? {
        Ok((name, def)) => Ok(macros.define(name, def)?),
        Err(BadDefine) => Err(Fail::from("a bad definition")),
    }
}

#[test]
fn the_built_in_names_are_there(rt: HostRuntime) -> Result<(), Fail> {
    let mut macros = Macros::new(rt.alloc())?;
    has(&rt, &macros, "__FILE__", "built in")?;
    has(&rt, &macros, "__has_cpp_attribute", "built in")?;
    has(&rt, &macros, "__has_include_next", "built in")?;
    has(&rt, &macros, "__FILE", "none")?;
    macros.undef(b"__FILE__");
    macros.undef(b"A");
    has(&rt, &macros, "__FILE__", "none")?;
    has(&rt, &macros, "__LINE__", "built in")
}

#[test]
fn a_later_definition_replaces_an_earlier_one(rt: HostRuntime) -> Result<(), Fail> {
    let mut macros = Macros::new(rt.alloc())?;
    define(&rt, &mut macros, "A 1")?;
    define(&rt, &mut macros, "B ( x ) x")?;
    define(&rt, &mut macros, "A 2")?;
    has(&rt, &macros, "A", "= 2")?;
    has(&rt, &macros, "B", "( x ) = x")
}

#[test]
fn what_was_saved_comes_back(rt: HostRuntime) -> Result<(), Fail> {
    let mut macros = Macros::new(rt.alloc())?;
    define(&rt, &mut macros, "A 1")?;
    macros.push(b"A")?;
    macros.undef(b"A");
    has(&rt, &macros, "A", "none")?;
    macros.pop(b"A");
    has(&rt, &macros, "A", "= 1")?;
    macros.pop(b"A");
    has(&rt, &macros, "A", "= 1")
}

#[test]
fn an_absence_is_saved(rt: HostRuntime) -> Result<(), Fail> {
    let mut macros = Macros::new(rt.alloc())?;
    macros.push(b"A")?;
    define(&rt, &mut macros, "A 1")?;
    macros.push(b"A")?;
    define(&rt, &mut macros, "A 2")?;
    macros.pop(b"A");
    has(&rt, &macros, "A", "= 1")?;
    macros.pop(b"A");
    has(&rt, &macros, "A", "none")
}

#[test]
fn a_shared_definition_replaces_an_earlier_one(rt: HostRuntime) -> Result<(), Fail> {
    let mut macros = Macros::new(rt.alloc())?;
    define(&rt, &mut macros, "A 1")?;
    let toks = tokens(rt.alloc(), "A 2")?;
    let Ok((name, def)) = read_define(rt.alloc(), toks.as_slice())? else {
        return Err(Fail::from("a bad definition"));
    };
    let shared = Arc::new(rt.alloc(), def)?;
    macros.define_shared(name.as_slice(), &shared)?;
    has(&rt, &macros, "A", "= 2")
}
