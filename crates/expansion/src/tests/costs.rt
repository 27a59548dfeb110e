use super::*;

/// Macros whose names double from one to the next.
fn doubled(alloc: Global) -> Result<Macros, Fail> {
    let mut macros = Macros::new(alloc)?;
    define(alloc, &mut macros, "P0 0")?;
    define(alloc, &mut macros, "N")?;
    for k in 1..18u32 {
        let j = k - 1;
        let words = format!(in alloc; "P{k} P{j} + P{j}")?;
        define(alloc, &mut macros, words.as_str())?;
    }
    Ok(macros)
}

fn is_done(alloc: Global, macros: &Macros, words: &str) -> Result<bool, Fail> {
    match expanded(alloc, macros, Mode::Line, words)? {
        Expanded::Done(_, _) => Ok(true),
        _ => Ok(false),
    }
}

#[test]
fn a_cost_of_the_limit_is_paid(rt: HostRuntime) -> Result<(), Fail> {
    let alloc = rt.alloc();
    let macros = doubled(alloc)?;
    let words = "P17 + P15 + P13 + P11 + P9 + P7 + P5 + P3 + P3 + P0 + P0 == 0";
    if !is_done(alloc, &macros, words)? {
        return Err(Fail::from("too long"));
    }
    let words = "P17 + P15 + P13 + P11 + P9 + P7 + P5 + P3 + P3 + P0 + P0 == 0 N";
    if is_done(alloc, &macros, words)? {
        return Err(Fail::from("not too long"));
    }
    Ok(())
}
