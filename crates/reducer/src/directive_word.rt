ghost use Rattle.std.specs.Prelude.{◌≡◌};
ghost use Rattle.reducer.specs.DirectiveWords.{directive_numbered, in_dialect};

use scan_model::{Dialect, Directive};

/// The directive whose name has this number among the names of directives.
pub fn directive_numbered(number: Option<u32>) -> Directive
    ensures { result ≡ directive_numbered number }
{
    match number {
        Some(0) => Directive::Define,
        Some(1) => Directive::Undef,
        Some(2) => Directive::If,
        Some(3) => Directive::Elif,
        Some(4) => Directive::Ifdef,
        Some(5) => Directive::Ifndef,
        Some(6) => Directive::Else,
        Some(7) => Directive::Endif,
        Some(8) => Directive::Include,
        Some(9) => Directive::Renumber,
        Some(10) => Directive::Error,
        Some(11) => Directive::Pragma,
        Some(12) => Directive::Nothing,
        Some(13) => Directive::Nothing,
        Some(14) => Directive::Elifdef,
        Some(15) => Directive::Elifndef,
        Some(16) => Directive::IncludeNext,
        _ => Directive::Unknown,
    }
}

/// The directive of C++23 as the dialect has it: C++20 knows neither `#elifdef` nor `#elifndef`.
pub fn in_dialect(dialect: Dialect, directive: Directive) -> Directive
    ensures { result ≡ in_dialect dialect directive }
{
    match (dialect, directive) {
        (Dialect::Cxx20, Directive::Elifdef) => Directive::Unknown,
        (Dialect::Cxx20, Directive::Elifndef) => Directive::Unknown,
        _ => directive,
    }
}
