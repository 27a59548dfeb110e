ghost use Rattle.std.specs.Prelude.{◌≡◌};
ghost use Rattle.scan_model.specs.Spelling.{is_alternative, is_one_of, punctuators, is_punct};

use word_table::{operator_word, punctuator};

// Whether the spelling is an alternative word ([lex.digraph]).
pub fn is_alternative(spelling: &[u8]) -> bool
    ensures { result ≡ is_alternative spelling.now }
{
    operator_word(spelling).is_some()
}

// Whether the spelling is one of the table: the longest row that begins it is the whole.
fn is_in_table(spelling: &[u8]) -> bool
    ensures { result ≡ is_one_of punctuators spelling.now }
{
    match punctuator(spelling) {
        Some((_, len)) => len == spelling.len(),
        None => false,
    }
}

/// Whether the spelling is a punctuator, an alternative word or a digraph ([lex.operators], [lex.digraph]).
#[tactic(auto, unfolding(scan_model::specs::Spelling::is_punct))]
pub fn is_punct(spelling: &[u8]) -> bool
    ensures { result ≡ is_punct spelling.now }
{
    is_in_table(spelling) || is_alternative(spelling)
}
