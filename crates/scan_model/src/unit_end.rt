use crate::{Bytes, CommandFault, Items, Text};

/// The module that a unit provides.
#[derive(Drop)]
pub struct Provided {
    pub name: Text,
    /// Whether it is an interface unit ([module.unit]).
    pub interface: bool,
}

/// What the build must know of a unit before it compiles it (P1689R5).
#[derive(Drop)]
pub struct Record {
    pub output: Text,
    pub source: Text,
    pub provides: Option<Provided>,
    /// The required names in the order of first appearance, each once. `requires` is a keyword of Rattle.
    pub required: Items<Text>,
}

/// Where a fault was met.
#[derive(Drop)]
pub struct Place {
    pub path: Bytes,
    /// The physical line, from 1; 0 where the main file itself couldn't be had.
    pub line: u32,
}

/// The faults that stop a unit.
#[derive(Clone, Copy, Debug, PartialEq, Eq)]
pub enum FaultKind {
    MainMissing,
    ReadFault,
    FileTooLarge,
    IncludeNotFound,
    IncludeSyntax,
    BadDefine,
    BadCondition,
    DivisionByZero,
    BadShift,
    BadNumber,
    ConditionTooDeep,
    Unbalanced,
    ErrorDirective,
    UnknownDirective,
    BadLine,
    ExpansionFault,
    ExpansionTooLong,
    TooDeep,
    TooManyEntered,
    BadModuleLine,
    SecondModule,
    PartitionOutsideModule,
    KeywordIsMacro,
    HeaderUnit,
    CounterUsed,
}

/// A fault and its place.
#[derive(Drop)]
pub struct Fault {
    pub kind: FaultKind,
    pub place: Place,
}

/// How the scan of one command ends.
#[derive(Drop)]
pub enum UnitEnd {
    Record(Record),
    Stopped(Fault),
    Refused(CommandFault),
    NoMemory,
}
