use super::*;

/// Fails where the tokens after `define` aren't read as a name and what `shown` prints, with a blank between.
fn reads_tokens(alloc: Global, toks: &[Tok], want: &str) -> Result<(), Fail> {
    match read_define(alloc, toks)? {
        Ok((name, def)) => {
            let mut text = Vec::from_slice(alloc, name.as_slice())?;
            text.push(b' ')?;
            text.extend_from_slice(shown(alloc, &def)?.as_slice())?;
            same(text.as_slice(), want)
        }
        Err(BadDefine) => same(b"bad", want),
    }
}

/// Each row has the words after `define`, and what they are read as.
fn reads(alloc: Global, rows: &str) -> Result<(), Fail> {
    for row in rows.split('\n') {
        let Some((words, want)) = row.split_once(" => ") else {
            return Err(Fail::from("no row"));
        };
        let toks = tokens(alloc, words)?;
        reads_tokens(alloc, toks.as_slice(), want)?;
    }
    Ok(())
}

#[test]
fn names_are_identifiers_that_are_free(rt: HostRuntime) -> Result<(), Fail> {
    reads(
        rt.alloc(),
        " => bad
3 x => bad
defined => bad
__has_include => bad
__has_include_next 1 => bad
__has_cpp_attribute => bad
__VA_ARGS__ x => bad
__VA_OPT__ x => bad
O => O =
__FILE__ 3 x => __FILE__ = 3 x",
    )
}

#[test]
fn parameters_are_listed(rt: HostRuntime) -> Result<(), Fail> {
    reads(
        rt.alloc(),
        "F ( a , a ) x => bad
F ( a , a ... ) x => bad
F ( => bad
F ( a => bad
F ( a , => bad
F ( a , ) x => bad
F ( a b ) x => bad
F ( 1 ) x => bad
F ( ... , a ) x => bad
F ( a ... b => bad
F ( ) => F ( ) =
F ( a , b ) b a => F ( a b ) = b a
F ( ... ) x => F ( __VA_ARGS__... ) = x
F ( a , ... ) x => F ( a __VA_ARGS__... ) = x
F ( a , b ... ) b => F ( a b... ) = b",
    )
}

#[test]
fn a_space_before_the_parenthesis_makes_a_list(rt: HostRuntime) -> Result<(), Fail> {
    let mut toks = tokens(rt.alloc(), "O")?;
    let mut paren = token(rt.alloc(), "(")?;
    paren.space = true;
    toks.push(paren)?;
    toks.push(token(rt.alloc(), ")")?)?;
    reads_tokens(rt.alloc(), toks.as_slice(), "O = ( )")
}

#[test]
fn names_of_the_variable_part(rt: HostRuntime) -> Result<(), Fail> {
    reads(
        rt.alloc(),
        "F ( __VA_OPT__ , ... ) x => bad
F ( __VA_OPT__ ... ) x => bad
F ( __VA_OPT__ ) x => F ( __VA_OPT__ ) = x
F ( __VA_ARGS__ , ... ) x => bad
F ( __VA_ARGS__ , b ... ) x => F ( __VA_ARGS__ b... ) = x",
    )
}

#[test]
fn pastes_have_operands(rt: HostRuntime) -> Result<(), Fail> {
    reads(
        rt.alloc(),
        "O a ## => bad
O ## a => bad
O ## => bad
F ( a ) a %:%: => bad
F ( ... ) __VA_OPT__ ( ## a ) => bad
F ( ... ) __VA_OPT__ ( a ## ) b => bad
O a ## b => O = a ## b
F ( ... ) a ## __VA_OPT__ ( b ) => F ( __VA_ARGS__... ) = a ## __VA_OPT__ ( b )",
    )
}

#[test]
fn strings_are_made_of_parameters(rt: HostRuntime) -> Result<(), Fail> {
    reads(
        rt.alloc(),
        "F ( a ) # b => bad
F ( a ) a # => bad
F ( a ) %: __VA_OPT__ ( a ) => bad
F ( a ) # a => F ( a ) = # a
O # b => O = # b
F ( a , ... ) # b => bad
F ( b ... ) # __VA_ARGS__ => bad
F ( ... ) # __VA_ARGS__ # __VA_OPT__ ( a ) => F ( __VA_ARGS__... ) = # __VA_ARGS__ # __VA_OPT__ ( a )",
    )
}

#[test]
fn optional_parts_have_their_content(rt: HostRuntime) -> Result<(), Fail> {
    reads(
        rt.alloc(),
        "F ( ... ) __VA_OPT__ => bad
F ( ... ) __VA_OPT__ x => bad
F ( ... ) __VA_OPT__ ( ( x ) => bad
F ( ... ) __VA_OPT__ ( a __VA_OPT__ ( b ) ) => bad
F ( ... ) __VA_OPT__ ( ( x ) ) ) => F ( __VA_ARGS__... ) = __VA_OPT__ ( ( x ) ) )
F ( a ) __VA_OPT__ x => F ( a ) = __VA_OPT__ x",
    )
}
