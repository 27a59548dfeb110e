/// The keyword of a module or import line.
#[derive(Clone, Copy, Debug, PartialEq, Eq)]
pub enum Keyword {
    Module,
    Import,
}

/// Why a module or import line is refused.
#[derive(Clone, Copy, Debug, PartialEq, Eq)]
pub enum ModuleFault {
    /// It has no `;`, or none of the forms of [module].
    BadModuleLine,
    /// It names the unit's module again.
    SecondModule,
    /// It imports a partition in a unit that has no module yet.
    PartitionOutsideModule,
    /// It imports a header, which this scanner leaves out.
    HeaderUnit,
}
