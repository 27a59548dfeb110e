use super::*;

#[test]
fn calls_with_usual_lists(rt: HostRuntime) -> Result<(), Fail> {
    all_give(
        rt.alloc(),
        r#"a/ a| *| g/2 => 2| *| g
x y/ x|+| y/ 1| 2/ => 1| 2|+
x/f| x/1|2 => f| 1|2
x/f|x/ 1 => f|1
x/f| x|g/ => f|g
x/x| x|##|1| x/N^9 => 9| N1| 9
x/__VA_OPT__|(|x|)/1 => __VA_OPT__|(|1|)
a b c d e f g h i j/j|a|#|i|b|##|c/1/2/3/4/5/6/7/8/9/0 => 0|1|"9"|23
a b c d e f g h i a/i|a/1/2/3/4/5/6/7/8/9/0 => 9|1
x/x/ => nothing"#,
    )
}

#[test]
fn strings_of_arguments(rt: HostRuntime) -> Result<(), Fail> {
    all_give(
        rt.alloc(),
        r#"x/#|x/ a| b|+| c => "a b+ c"
x/#|x/ => ""
x/#|x/"a\n" => "\"a\\n\""
x/#|x/'"'| '\\' => "'\"' '\\\\'"
x/#|x/a|"b"|c => "a\"b\"c"
x/#|x/<a\b> => "<a\b>"
x/#|x/<a"b> => bad
x/#|x/\ => bad
x/#|x/\|n => "\n"
x/y| #|x/1 => y| "1"
x/y|%:| x/ 1 => y|"1"
x/#|x/N^1 => "N""#,
    )
}

#[test]
fn strings_of_newlines(rt: HostRuntime) -> Result<(), Fail> {
    let want = r#""R\"(a\nb)\"""#;
    gives(rt.alloc(), "x/#|x/R\"(a\nb)\"", want)?;
    gives(rt.alloc(), "x/#|x/R\"(a\r\nb)\"", want)
}

#[test]
fn joins_of_tokens(rt: HostRuntime) -> Result<(), Fail> {
    all_give(
        rt.alloc(),
        r#"a b/a|##|b// => nothing
a b/a|##|b/+/- => bad
a b/ a| ##| b/x/ 1 => x1
a b/+| a| ##| b/x/1 => +| x1
a b/+|a| ##| b/x/ 1 => +|x1
a b/+|a| ##| b//1 => +| 1
a b/+| a|##|b| -/x/ => +| x| -
a b/a|##|b/p| q/r| s => p| qr| s
a b/a|##|##|b/x/y => bad
a b/ a| ##| ##| b//y => ##| y
a/a|##|.|##|e/1 => 1.e
a/%:|%:%:|%|##|a/: => bad
x/x| b/a| ##^a| ## => a| ##| b
x/L| ##| #|x/a => L"a""#,
    )
}

#[test]
fn commas_before_the_variable_part(rt: HostRuntime) -> Result<(), Fail> {
    all_give(
        rt.alloc(),
        r#"x __VA_ARGS__.../ g|(|x|,| ##| __VA_ARGS__|)/1/ => g|(|1|)
x __VA_ARGS__.../ g|(|x|,| ##| __VA_ARGS__|)/1/2 => g|(|1|,| 2|)
x V.../x| ##| ,| ##| V/a/ => a
x V.../x| ##| ,| ##| V/a/b => bad
V.../,| ##| V| ##| y/N^9 => ,| Ny
V.../f|,| ##| V/N^9 => f|,| 9
V.../f|,| ##| V/N^ => f|,
x V.../x| ##| V/,/ => ,
x V.../x| ##| V/,/a => bad
x V.../f|,| ##| x//a => f|,
x V.../f|,| ##| x/1/ => bad"#,
    )
}

#[test]
fn content_of_opt(rt: HostRuntime) -> Result<(), Fail> {
    all_give(
        rt.alloc(),
        r#"V.../f|(|0| __VA_OPT__|(|,|)| V|)/ => f|(|0|)
V.../f|(|0| __VA_OPT__|(|,|)| V|)/1 => f|(|0| ,| 1|)
V.../f|__VA_OPT__|(|a|)/N^ => f
V.../f|__VA_OPT__|(|a|)/N^1 => f|a
V.../ __VA_OPT__|(| (|V|)|)/1 => (|1|)
x V.../f|__VA_OPT__|(|x| ##| b|)//1 => f|b
x V.../f| __VA_OPT__|(|x|b|)//1 => f| b
V.../a| ##| __VA_OPT__|(|b|)/ => a
V.../a| ##| __VA_OPT__|(|b|)/1 => ab
V.../a| ##| __VA_OPT__|(|)|b/1 => a|b
x V.../+|__VA_OPT__|(|x|)| ##| c//1 => +| c
V.../1| ##| __VA_OPT__|(|.| ##| e|)/x => bad"#,
    )
}

#[test]
fn strings_of_opt(rt: HostRuntime) -> Result<(), Fail> {
    all_give(
        rt.alloc(),
        r#"__VA_ARGS__.../#|__VA_OPT__|(|a| __VA_ARGS__|)/ => ""
__VA_ARGS__.../#|__VA_OPT__|(|a| __VA_ARGS__|)/1 => "a 1"
x V.../#|__VA_OPT__|(| x| V|)/N^9/b| c => "9 b c"
V.../f| #|__VA_OPT__|(|a|)/1 => f| "a"
V.../f|#| __VA_OPT__|(|V| ##| b|)/1 => f|"1b""#,
    )
}

#[test]
fn first_token_has_the_space_of_the_name(rt: HostRuntime) -> Result<(), Fail> {
    let alloc = rt.alloc();
    let given = put_in(alloc, " F", "x y/x|y|a//1| 2")?;
    same(shown(alloc, given)?.as_slice(), " 1| 2|a")
}

/// The lines of the tokens, a digit for each.
fn lines(alloc: Global, given: Option<Items<Marked>>) -> Result<Vec<u8>, NoMemory> {
    let mut text = Vec::new(alloc);
    let Some(given) = given else {
        return Ok(text);
    };
    for marked in given.as_slice() {
        text.push(match marked.tok.line {
            LIST => b'1',
            ARGS => b'2',
            NAME => b'7',
            _ => b'?',
        })?;
    }
    Ok(text)
}

#[test]
fn lines_of_tokens(rt: HostRuntime) -> Result<(), Fail> {
    let alloc = rt.alloc();
    let given = put_in(alloc, "F", "x y/a|#|x|x|##|b|y|##|c|x/1/")?;
    same(lines(alloc, given)?.as_slice(), "77272")
}
