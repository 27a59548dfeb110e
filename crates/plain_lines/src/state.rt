ghost use Rattle.macro_table.specs.Table.{macros_of};
ghost use Rattle.replaced_names.specs.Names.{IsUtf8Map};

use macro_table::Macros;
use module_lines::RecordBuilder;
use scan_model::Site;
use string_set::StringSet;

/// An open conditional ([cpp.cond]).
#[derive(Clone, Copy)]
pub struct OpenGroup {
    /// The physical number of the line that opened it, from 1.
    pub line: u32,
    /// Whether the tokens that stand here now aren't skipped.
    pub live: bool,
    /// Whether no later group of it can be taken.
    pub taken: bool,
    /// Whether its `#else` has come.
    pub past_else: bool,
}

/// What a file has of its own while its lines are taken.
#[derive(Drop)]
pub struct FileState {
    /// Its presumed name and line numbers; None while they are those with which a file begins.
    pub site: Option<Site>,
    /// Its open conditionals, the innermost last.
    pub groups: Vec<OpenGroup>,
    /// Its place in the chain of folders, where it has one.
    pub chain_place: Option<u32>,
}

/// What the files of a unit share.
#[derive(Drop)]
pub struct UnitState {
    pub macros: Macros,
    /// The paths of the files with `#pragma once`.
    pub once: StringSet,
    /// The record of the module and import lines so far.
    pub builder: RecordBuilder,
    /// The text of each identifier in a definition is well-formed UTF-8.
    pub ghost utf8: { ∥ IsUtf8Map (macros_of macros) ∥₁ },
}
