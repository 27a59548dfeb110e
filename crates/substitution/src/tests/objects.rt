use super::*;

/// Fails where the list doesn't give these tokens.
fn gives(alloc: Global, body: &str, want: &str) -> Result<(), Fail> {
    let mut sets = HideSets::new(alloc);
    let body = list(alloc, body)?;
    let name = token(alloc, NAME, "O")?;
    let given = substitute_object(alloc, &mut sets, body.as_slice(), &name)?;
    same(shown(alloc, given)?.as_slice(), want)
}

#[test]
fn lists_of_objects(rt: HostRuntime) -> Result<(), Fail> {
    let alloc = rt.alloc();
    gives(alloc, "", "nothing")?;
    gives(alloc, r#" #| x|,|R| ##| "(a)""#, r#"#| x|,|R"(a)""#)?;
    gives(alloc, "a| ##| +", "bad")?;
    gives(alloc, "__VA_OPT__|(|a| ##| 1|)", "__VA_OPT__|(|a1|)")
}
