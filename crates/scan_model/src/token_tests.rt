ghost use Rattle.std.specs.Prelude.{◌≡◌, ◌≤◌, ◌<◌, ◌+◌, ◌^◌, [], ◌∷◌, IfOk};
ghost use Rattle.std.specs.List.{list_any};
ghost use Rattle.scan_model.specs.declared.token.Kind.TheVariants.{Ident, Header};
ghost use Rattle.scan_model.specs.TokenTests.{is_of, is_sign, is_hash, is_paste, is_comma, is_open_paren, is_close_paren, is_named, is_plain_string};
ghost use Rattle.scan_model.specs.Parentheses.{depth_after};
ghost use Rattle.scan_model.specs.MacroDefinition.{is_opt};

use crate::{Bytes, Kind, NoMemory, Tok};
use std::alloc::Global;

impl Tok {
    /// The same token in memory of its own. `Err` is want of memory.
    pub fn copy(&self, alloc: Global) -> Result<Tok, NoMemory>
        ensures { IfOk result (λ copy. copy ≡ self.now) }
    {
        Ok(Tok {
            kind: self.kind,
            text: Bytes::copy(alloc, self.text.as_slice())?,
            space: self.space,
            line: self.line,
        })
    }

    /// Whether it is an identifier ([lex.name]).
    pub fn is_ident(&self) -> bool
        ensures { result ≡ is_of Ident self.now }
    {
        matches!(self.kind, Kind::Ident)
    }

    /// Whether it is the identifier of this name.
    pub fn is_named(&self, name: &[u8]) -> bool
        ensures { result ≡ is_named name.now self.now }
    {
        matches!(self.kind, Kind::Ident) && name == self.text.as_slice()
    }

    /// Whether it is the word `__VA_OPT__` ([cpp.subst]).
    pub fn is_opt(&self) -> bool
        ensures { result ≡ is_opt self.now }
    {
        matches!(self.kind, Kind::Ident) && self.text.as_slice() == b"__VA_OPT__".as_slice()
    }

    /// Whether it is a header's name in its own marks ([lex.header]).
    pub fn is_header(&self) -> bool
        ensures { result ≡ is_of Header self.now }
    {
        matches!(self.kind, Kind::Header)
    }

    /// Whether it is `#`, also written `%:` ([lex.digraph]).
    pub fn is_hash(&self) -> bool
        ensures { result ≡ is_hash self.now }
    {
        matches!(self.kind, Kind::Punct) && matches!(self.text.as_slice(), b"#" | b"%:")
    }

    /// Whether it is `##`, also written `%:%:` ([lex.digraph]).
    pub fn is_paste(&self) -> bool
        ensures { result ≡ is_paste self.now }
    {
        matches!(self.kind, Kind::Punct) && matches!(self.text.as_slice(), b"##" | b"%:%:")
    }

    /// Whether it is `,`.
    pub fn is_comma(&self) -> bool
        ensures { result ≡ is_comma self.now }
    {
        matches!(self.kind, Kind::Punct) && self.text.as_slice() == b",".as_slice()
    }

    /// Whether it is `(`.
    pub fn is_open_paren(&self) -> bool
        ensures { result ≡ is_open_paren self.now }
    {
        matches!(self.kind, Kind::Punct) && self.text.as_slice() == b"(".as_slice()
    }

    /// Whether it is `)`.
    pub fn is_close_paren(&self) -> bool
        ensures { result ≡ is_close_paren self.now }
    {
        matches!(self.kind, Kind::Punct) && self.text.as_slice() == b")".as_slice()
    }

    /// Whether it is `<`.
    pub fn is_less(&self) -> bool
        ensures { result ≡ is_sign ("<" ∷ []) self.now }
    {
        matches!(self.kind, Kind::Punct) && self.text.as_slice() == b"<".as_slice()
    }

    /// Whether it is `>`.
    pub fn is_greater(&self) -> bool
        ensures { result ≡ is_sign (">" ∷ []) self.now }
    {
        matches!(self.kind, Kind::Punct) && self.text.as_slice() == b">".as_slice()
    }

    /// How many parentheses are open after it, where `depth` are open before it; one that closes none counts for none.
    pub fn depth_after(&self, depth: usize) -> usize
        requires { depth + 1 < 2 ^ 64 }
        ensures value { result ≡ depth_after self.now depth }
        ensures one_more { result ≤ depth + 1 }
    {
        if self.is_open_paren() {
            depth + 1
        } else if self.is_close_paren() {
            depth.saturating_sub(1)
        } else {
            depth
        }
    }

    /// Whether it is a string with no prefix, no suffix and no `R` ([lex.string]).
    pub fn is_plain_string(&self) -> bool
        ensures { result ≡ is_plain_string self.now }
    {
        let text = self.text.as_slice();
        matches!(self.kind, Kind::Str)
            && text.len() > 0
            && text[0] == b'"'
            && text[text.len() - 1] == b'"'
    }
}

/// Whether `__VA_OPT__` is one of the tokens ([cpp.subst]).
pub fn has_opt(toks: &[Tok]) -> bool
    ensures { result ≡ list_any is_opt toks.now }
{
    toks.iter().any(Tok::is_opt)
}
