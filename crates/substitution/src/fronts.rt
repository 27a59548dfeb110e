ghost use Rattle.std.specs.Prelude.{◌≡◌};
ghost use Rattle.scan_model.specs.TokenTests.{is_hash, is_paste, is_comma, begins_with};

use scan_model::Tok;

/// Whether a `##` comes first.
pub(crate) fn begins_with_paste(toks: &[Tok]) -> bool
    ensures { result ≡ begins_with is_paste toks.now }
{
    !toks.is_empty() && toks[0].is_paste()
}

/// Whether a `#` comes first.
pub(crate) fn begins_with_hash(toks: &[Tok]) -> bool
    ensures { result ≡ begins_with is_hash toks.now }
{
    !toks.is_empty() && toks[0].is_hash()
}

/// Whether a comma comes first.
pub(crate) fn begins_with_comma(toks: &[Tok]) -> bool
    ensures { result ≡ begins_with is_comma toks.now }
{
    !toks.is_empty() && toks[0].is_comma()
}
