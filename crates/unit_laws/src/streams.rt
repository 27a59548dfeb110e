//! The stream read token by token.

ghost use Rattle.unit_laws.specs.Streams.{ReadByTokens, UnitsHaveKeywordsInPlace, UnitsReadByTokens};

/// Read token by token, from a keyword to its line's end, a stream whose keywords stand in its module and import lines
/// alone gives what it gives by these lines.
pub fn tokens_give_what_module_lines_give()
    ensures { ReadByTokens }
{}

/// The keywords in the stream of a unit stand in its module and import lines alone.
pub fn keywords_stand_in_module_lines_alone()
    ensures { UnitsHaveKeywordsInPlace }
{}

/// Read token by token the stream of a unit gives what it gives by module and import lines.
pub fn units_read_by_tokens_alike()
    ensures { UnitsReadByTokens }
{}
