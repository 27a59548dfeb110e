ghost use Rattle.std.specs.Prelude.{◌≡◌, ◌<◌, [], ◌∷◌, length, MatchOption};
ghost use Rattle.std.specs.Str.{chars};

// The first character, and the text after it. None exactly where the text is empty.
pub fn split_first(text: &str) -> Option<(char, &str)>
    ensures characters { MatchOption result (chars text.now ≡ []) (λ r. chars text.now ≡ r.0 ∷ chars r.1.now) }
    ensures shorter { MatchOption result (length text.now ≡ 0) (λ r. length r.1.now < length text.now) }
{
    let mut rest = text.chars();
    match rest.next() {
        Some(first) => Some((first, rest.as_str())),
        None => None,
    }
}
