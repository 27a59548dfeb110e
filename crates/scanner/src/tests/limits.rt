//! Units at the limits, and units that are large.

use super::units::is_as_said;
use std::alloc::Global;
use std::test::Fail;

fn repeat(text: &mut String, piece: &str, times: usize) -> Result<(), Fail> {
    for _ in 0..times {
        text.push_str(piece)?;
    }
    Ok(())
}

// The file `u.cpp` with this text before the pieces and that one after them.
fn main_file(
    alloc: Global,
    before: &str,
    piece: &str,
    times: usize,
    after: &str,
) -> Result<String, Fail> {
    let mut text = String::from_str(alloc, "u.cpp ")?;
    text.push_str(before)?;
    repeat(&mut text, piece, times)?;
    text.push_str(after)?;
    Ok(text)
}

// Headers of which each includes the next one, and the last one imports a module.
fn nest(alloc: Global, last: u32) -> Result<String, Fail> {
    let mut text = String::from_str(alloc, "u.cpp #include \"h1.h\"")?;
    for number in 1..last {
        let next = number + 1;
        text.push_str(format!(in alloc; "@h{number}.h ")?.as_str())?;
        text.push_str(format!(in alloc; "#include \"h{next}.h\"")?.as_str())?;
    }
    text.push_str(format!(in alloc; "@h{last}.h import deep;")?.as_str())?;
    Ok(text)
}

// One definition a line, and then a condition of the last one.
fn definitions(alloc: Global, count: u32) -> Result<String, Fail> {
    let mut text = String::from_str(alloc, "u.cpp ")?;
    for number in 0..count {
        text.push_str(format!(in alloc; "#define m{number} 1`")?.as_str())?;
    }
    text.push_str("#if m7 + m77777 == 2`import a;`#endif")?;
    Ok(text)
}

// Each of these macros is replaced by the one before, twice.
fn doubling(alloc: Global) -> Result<String, Fail> {
    let mut text = String::from_str(alloc, "u.cpp #define T0 0`")?;
    for number in 0..17u32 {
        let next = number + 1;
        text.push_str(format!(in alloc; "#define T{next} ")?.as_str())?;
        text.push_str(format!(in alloc; "T{number}+")?.as_str())?;
        text.push_str(format!(in alloc; "T{number}`")?.as_str())?;
    }
    text.push_str("#define N`#if T17+T15+T13+T11+T9+T7+T5+T3+T3+T0+T0 == 0")?;
    Ok(text)
}

// A macro of 200 parameters that gives the last one, called in a condition.
fn parameters(alloc: Global) -> Result<String, Fail> {
    let mut text = String::from_str(alloc, "u.cpp #define LAST(p0")?;
    for number in 1..200u32 {
        text.push_str(format!(in alloc; ", p{number}")?.as_str())?;
    }
    text.push_str(") p199`#if LAST(0")?;
    repeat(&mut text, ", 0", 198)?;
    text.push_str(", 1)`import a;`#endif")?;
    Ok(text)
}

#[test]
fn depths(rt: HostRuntime) -> Result<(), Fail> {
    let alloc = rt.alloc();
    is_as_said(
        &rt,
        alloc,
        "-c",
        nest(alloc, 200)?.as_str(),
        "requires deep",
    )?;
    let deeper = nest(alloc, 201)?;
    is_as_said(&rt, alloc, "-c", deeper.as_str(), "/p/h200.h:1: TooDeep")
}

#[test]
fn entered_files(rt: HostRuntime) -> Result<(), Fail> {
    let alloc = rt.alloc();
    let most = main_file(alloc, "", "#include \"e.h\"`", 65_535, "import a;@e.h ")?;
    is_as_said(&rt, alloc, "-c", most.as_str(), "requires a in 2")?;
    let more = main_file(alloc, "", "#include \"e.h\"`", 65_536, "import a;@e.h ")?;
    is_as_said(
        &rt,
        alloc,
        "-c",
        more.as_str(),
        "/p/u.cpp:65536: TooManyEntered",
    )
}

#[test]
fn long_lines(rt: HostRuntime) -> Result<(), Fail> {
    let alloc = rt.alloc();
    let body = main_file(alloc, "#define LONG", " x", 100_000, "`import a;")?;
    is_as_said(&rt, alloc, "-c", body.as_str(), "requires a")?;
    let condition = main_file(alloc, "#if 1", " && 1", 100_000, "`import a;`#endif")?;
    is_as_said(&rt, alloc, "-c", condition.as_str(), "requires a")?;
    let open = main_file(alloc, "#if ", "(", 257, "1`import a;`#endif")?;
    is_as_said(
        &rt,
        alloc,
        "-c",
        open.as_str(),
        "/p/u.cpp:1: ConditionTooDeep",
    )
}

// A macro's name of 100 bytes, a module's name of 300 parts, a macro of 200 parameters.
#[test]
fn long_names(rt: HostRuntime) -> Result<(), Fail> {
    let alloc = rt.alloc();
    let mut named = main_file(alloc, "#define ", "n", 100, " 1`#if ")?;
    repeat(&mut named, "n", 100)?;
    named.push_str("`import a;`#endif")?;
    is_as_said(&rt, alloc, "-c", named.as_str(), "requires a")?;
    let import = main_file(alloc, "import a", ".b", 299, ";")?;
    let mut record = String::from_str(alloc, "requires a")?;
    repeat(&mut record, ".b", 299)?;
    is_as_said(&rt, alloc, "-c", import.as_str(), record.as_str())?;
    let many = parameters(alloc)?;
    is_as_said(&rt, alloc, "-c", many.as_str(), "requires a")
}

#[test]
fn many_macros(rt: HostRuntime) -> Result<(), Fail> {
    let alloc = rt.alloc();
    let many = definitions(alloc, 100_000)?;
    is_as_said(&rt, alloc, "-c", many.as_str(), "requires a")
}

// A file may have 33,554,432 bytes.
#[test]
fn large_files(rt: HostRuntime) -> Result<(), Fail> {
    let alloc = rt.alloc();
    let before = "#include \"big.h\"`import a;@big.h ";
    let most = main_file(alloc, before, " ", 33_554_432, "")?;
    is_as_said(&rt, alloc, "-c", most.as_str(), "requires a")?;
    let more = main_file(alloc, before, " ", 33_554_433, "")?;
    is_as_said(&rt, alloc, "-c", more.as_str(), "/p/u.cpp:1: FileTooLarge")
}

#[test]
fn costs(rt: HostRuntime) -> Result<(), Fail> {
    let alloc = rt.alloc();
    let mut text = doubling(alloc)?;
    text.push_str("`import a;`#endif")?;
    is_as_said(&rt, alloc, "-c", text.as_str(), "requires a")?;
    let mut more = doubling(alloc)?;
    more.push_str(" N`import a;`#endif")?;
    is_as_said(
        &rt,
        alloc,
        "-c",
        more.as_str(),
        "/p/u.cpp:20: ExpansionTooLong",
    )
}
