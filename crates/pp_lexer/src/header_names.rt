ghost use Rattle.std.specs.Prelude.{◌≡◌, ◌-◌, [], ◌∷◌, nat_eq, take, drop, length};
ghost use lib.Pointwise.{pointwise};
ghost use Rattle.scan_model.specs.Tokens.{wants_header};
ghost use Rattle.pp_lexer.specs.Reads.{are_bytes};

use scan_model::Tok;

fn is_word(tok: &Tok, word: &[u8]) -> bool
    ensures { result ≡ pointwise nat_eq word.now tok.now.text }
{
    word == tok.text.as_slice()
}

fn is_one(toks: &[Tok], word: &[u8]) -> bool
    ensures { result ≡ are_bytes (word.now ∷ []) toks.now }
{
    if toks.len() != 1 {
        return false;
    }
    is_word(&toks[0], word)
}

fn are_two(toks: &[Tok], first: &[u8], second: &[u8]) -> bool
    ensures { result ≡ are_bytes (first.now ∷ second.now ∷ []) toks.now }
{
    if toks.len() != 2 {
        return false;
    }
    is_word(&toks[0], first) & is_word(&toks[1], second)
}

fn first_two(toks: &[Tok]) -> &[Tok]
    ensures { result.now ≡ take 2 toks.now }
{
    if toks.len() > 2 { &toks[..2] } else { toks }
}

fn last_two(toks: &[Tok]) -> &[Tok]
    ensures { result.now ≡ drop (length toks.now - 2) toks.now }
{
    if toks.len() > 2 {
        &toks[toks.len() - 2..]
    } else {
        toks
    }
}

// Whether after these tokens of a line a header name is tried first ([lex.header]): after `#include` and
// `#include_next`, after a leading `import`, with or without `export`, and after `__has_include (` and
// `__has_include_next (` in a condition.
pub fn wants_header(before: &[Tok]) -> bool
    ensures { result ≡ wants_header before.now }
{
    let after_include = are_two(before, b"#", b"include") | are_two(before, b"%:", b"include");
    let after_next = are_two(before, b"#", b"include_next")
        | are_two(before, b"%:", b"include_next");
    let after_import = is_one(before, b"import");
    let after_export = are_two(before, b"export", b"import");
    let opening = first_two(before);
    let in_if = are_two(opening, b"#", b"if") | are_two(opening, b"%:", b"if");
    let in_elif = are_two(opening, b"#", b"elif") | are_two(opening, b"%:", b"elif");
    let last = last_two(before);
    let after_test = are_two(last, b"__has_include", b"(")
        | are_two(last, b"__has_include_next", b"(");
    after_include | after_next | after_import | after_export | ((in_if | in_elif) & after_test)
}
