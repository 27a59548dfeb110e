ghost use Rattle.std.specs.Prelude.{◌≡◌, [], IfOk};
ghost use Rattle.scan_model.specs.ModuleLines.{new};
ghost use Rattle.scan_model.specs.Macros.{first_macros, cplusplus_23};
ghost use Rattle.macro_table.specs.Table.{macros_of};

use crate::state::UnitState;
use macro_table::Macros;
use module_lines::RecordBuilder;
use scan_model::{Bytes, Def, Dialect, Items, Kind, NoMemory, Text, Tok};
use std::alloc::Global;
use string_set::StringSet;

// What `__cplusplus` is defined as in C++23 ([cpp.predefined]).
fn cplusplus_23(alloc: Global) -> Result<Def, NoMemory>
    ensures { IfOk result (λ def. def ≡ cplusplus_23) }
{
    let mut toks = Vec::new(alloc);
    toks.push(Tok {
        kind: Kind::Number,
        text: Bytes::copy(alloc, b"202302L")?,
        space: false,
        line: 0,
    })?;
    Ok(Def::Object(Items::of_vec(toks)))
}

fn macros_of_cxx23(alloc: Global) -> Result<Macros, NoMemory>
    ensures { IfOk result (λ macros. macros_of macros ≡ first_macros Dialect.Cxx23) }
{
    let mut macros = Macros::new(alloc)?;
    let name = Bytes::copy(alloc, b"__cplusplus")?;
    macros.define(name, cplusplus_23(alloc)?)?;
    Ok(macros)
}

// The macros that a unit begins with ([cpp.predefined]).
fn first_macros(alloc: Global, dialect: Dialect) -> Result<Macros, NoMemory>
    ensures { IfOk result (λ macros. macros_of macros ≡ first_macros dialect) }
{
    match dialect {
        Dialect::Cxx20 => Macros::new(alloc),
        Dialect::Cxx23 => macros_of_cxx23(alloc),
    }
}

impl UnitState {
    /// The state of a unit before its first line. `Err` is want of memory.
    ///
    /// The texts are those of a command: the path of what it makes, and the main path as the record prints it.
    pub fn new(
        alloc: Global,
        dialect: Dialect,
        output: &Text,
        source: &Text,
    ) -> Result<UnitState, NoMemory>
        ensures macros { IfOk result (λ unit. macros_of unit.macros ≡ first_macros dialect) }
        ensures once { IfOk result (λ unit. unit.once ≡ []) }
        ensures builder { IfOk result (λ unit. unit.builder ≡ new output.now source.now) }
    {
        let macros = first_macros(alloc, dialect)?;
        let builder = RecordBuilder::new(alloc, output, source)?;
        Ok(UnitState {
            macros,
            once: StringSet::new(alloc),
            builder,
        })
    }
}
