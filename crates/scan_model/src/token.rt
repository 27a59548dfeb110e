use crate::{Bytes, Items};

/// The kinds of preprocessing tokens ([lex.pptoken]), and of what a module or import line puts among them
/// ([cpp.module], [cpp.import]).
#[derive(Clone, Copy, Debug, PartialEq, Eq)]
pub enum Kind {
    Ident,
    Number,
    Char,
    Str,
    Header,
    Punct,
    /// A character or a quote that begins no other token.
    Stray,
    ModuleKw,
    ImportKw,
    ExportKw,
    LineEnd,
}

/// A preprocessing token.
#[derive(Drop)]
pub struct Tok {
    pub kind: Kind,
    /// The spelling after phase 2 of translation.
    pub text: Bytes,
    /// Whether it is its line's first, or white space or a comment stands directly before it.
    pub space: bool,
    /// Its line's physical number, from 1.
    pub line: u32,
}

/// A logical line that has tokens: those between two newlines that stand outside tokens and comments.
#[derive(Drop)]
pub struct Line {
    pub toks: Items<Tok>,
    /// The physical number, from 1, of the first token's first byte.
    pub line: u32,
    /// The number of the physical line after its end.
    pub next: u32,
}
