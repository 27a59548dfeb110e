use super::*;

/// A row's parameters, list, name of a parameter, and the answer that is wanted.
fn parts(row: &str) -> Result<(&str, &str, &str, &str), Fail> {
    let Some((params, rest)) = row.split_once('/') else {
        return Err(Fail::from("no list"));
    };
    let Some((body, rest)) = rest.split_once('/') else {
        return Err(Fail::from("no name"));
    };
    let Some((name, want)) = rest.split_once(" => ") else {
        return Err(Fail::from("no row"));
    };
    Ok((params, body, name, want))
}

/// Fails where a row doesn't say whether its argument is replaced by itself.
fn are_replaced(alloc: Global, rows: &str) -> Result<(), Fail> {
    for row in rows.split('\n') {
        let (params, body, name, want) = parts(row)?;
        let definition = definition(alloc, params, body)?;
        let got = IndexedDef::new(alloc, &definition)?.is_replaced(name.as_bytes());
        same(if got { b"yes" } else { b"no" }, want)?;
    }
    Ok(())
}

/// Fails where a row doesn't say whether its argument is taken as it is written.
fn are_taken(alloc: Global, rows: &str) -> Result<(), Fail> {
    for row in rows.split('\n') {
        let (params, body, name, want) = parts(row)?;
        let definition = definition(alloc, params, body)?;
        let got = IndexedDef::new(alloc, &definition)?.is_taken_as_written(name.as_bytes());
        same(if got { b"yes" } else { b"no" }, want)?;
    }
    Ok(())
}

#[test]
fn parameters_that_stand_alone(rt: HostRuntime) -> Result<(), Fail> {
    are_replaced(
        rt.alloc(),
        "x/a|x/x => yes
x/y/x => no
x/#|x/x => no
x/x|##|1/x => no
x/1|%:%:|x/x => no
x/x|+|x|##|1/x => yes
x y/x| #|y/x => yes
x y/x| #|y/y => no
V.../#|V/V => no
V.../f|,|##|V/V => yes
V.../f|,|##|V|##|y/V => no
x V.../f|,|##|x/x => no
V.../__VA_OPT__|(|a|)/V => yes
V.../#|__VA_OPT__|(|a|)/V => yes
a b c d e f g h i V.../a|##|b|c|,|##|V/a => no
a b c d e f g h i V.../a|##|b|c|,|##|V/c => yes
a b c d e f g h i V.../a|##|b|c|,|##|V/d => no
a b c d e f g h i V.../a|##|b|c|,|##|V/V => yes
x V.../__VA_OPT__|(|x|)/x => yes
x V.../__VA_OPT__|(|a|)/x => no",
    )
}

#[test]
fn parameters_that_stand_as_operands(rt: HostRuntime) -> Result<(), Fail> {
    are_taken(
        rt.alloc(),
        "x/#|x/x => yes
x/x|##|1/x => yes
x/1|%:%:|x/x => yes
x/x|+|x/x => no
x/x|+|x|##|1/x => yes
x/xx|##|1/x => no
x y/#|y|x/x => no
x y/#|y|x/y => yes
V.../f|,|##|V/V => yes
V.../f|(|V|)/V => no
V.../__VA_OPT__|(|#|V|)/V => yes
a b c d e f g h i/#|b|c|##|d|a/b => yes
a b c d e f g h i/#|b|c|##|d|a/d => yes
a b c d e f g h i/#|b|c|##|d|a/a => no
x V.../x|__VA_OPT__|(|a|)|##|b/x => no",
    )
}
