use crate::{Bytes, Items, Tok};

/// The macros that the language itself defines ([cpp.predefined], [cpp.cond]), and `__COUNTER__`, which compilers add.
#[derive(Clone, Copy, Debug, PartialEq, Eq)]
pub enum BuiltIn {
    /// `__FILE__`
    File,
    /// `__LINE__`
    Line,
    /// `__DATE__`
    Date,
    /// `__TIME__`
    Time,
    /// `__COUNTER__`
    Counter,
    /// `__cplusplus`
    Cplusplus,
    /// `__has_include`
    HasInclude,
    /// `__has_include_next`
    HasIncludeNext,
    /// `__has_cpp_attribute`
    HasAttribute,
}

/// A function-like macro ([cpp.replace]).
#[derive(Drop)]
pub struct FunctionDef {
    /// The names of the parameters before the variable part, in order.
    pub params: Items<Bytes>,
    /// The name of the variable part, `__VA_ARGS__` or the one that is written, where there is one.
    pub variadic: Option<Bytes>,
    /// The replacement list.
    pub body: Items<Tok>,
}

/// What a macro's name is defined as ([cpp.replace]).
#[derive(Drop)]
pub enum Def {
    /// An object-like macro, by its replacement list.
    Object(Items<Tok>),
    Function(FunctionDef),
    BuiltIn(BuiltIn),
}
