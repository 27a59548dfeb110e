ghost use Rattle.std.specs.Prelude.{◌≡◌, ◌<◌, IfOk, IfSome, Option, length, drop};
ghost use Rattle.std.specs.Option.{option_map};
ghost use Rattle.scan_model.specs.ModuleLines.{dotted};
ghost use Rattle.module_lines.specs.Found.{dotted_of};
ghost use Rattle.scan_model.specs.Utf8Names.{HaveUtf8Names};

use crate::names::{append, text_of};
use crate::token_tests::has_further;
use scan_model::{NoMemory, Text, Tok};
use std::alloc::Global;

/// Identifiers joined by `.`, and the tokens that follow them.
#[derive(Drop)]
pub(crate) struct Dotted<'a> {
    pub name: Text,
    pub after: &'a [Tok],
}

/// None exactly where the first token is no identifier.
pub(crate) fn read_dotted<'a>(
    alloc: Global,
    toks: &'a [Tok],
) -> Result<Option<Dotted<'a>>, NoMemory>
    requires { HaveUtf8Names toks.now }
    ensures value { IfOk result (λ d. option_map dotted_of d ≡ dotted toks.now) }
    ensures utf8 { IfOk result (λ d. IfSome d (λ d. HaveUtf8Names d.after.now)) }
{
    if toks.is_empty() || !toks[0].is_ident() {
        return Ok(None);
    }
    let mut name = Vec::from_slice(alloc, toks[0].text.as_slice())?;
    let mut after = &toks[1..];
    'further: while has_further(after) {
        append(&mut name, b'.', after[1].text.as_slice())?;
        after = past_further(after);
    }
    Ok(Some(Dotted {
        name: text_of(alloc, name.as_slice())?,
        after,
    }))
}

/// The tokens after a `.` and an identifier.
fn past_further(toks: &[Tok]) -> &[Tok]
    requires { 1 < length toks.now }
    ensures { result.now ≡ drop 2 toks.now }
{
    &toks[2..]
}
