ghost use Rattle.std.specs.Prelude.{◌≡◌};
ghost use Rattle.scan_model.specs.Tokens.{wants_header};
ghost use Rattle.reducer.specs.Building.{open_toks, IsSound};
ghost use Rattle.reducer.specs.Directives.{are_before_header, begins_condition, ends_in_test};

use crate::directive_lines::{begins_with_sharp, is_word};
use crate::open_lines::OpenLines;

// Whether these tokens, and no further ones, are followed by a header name.
fn are_before_header(lines: &OpenLines) -> bool
    requires { IsSound lines.now }
    ensures { result ≡ are_before_header (open_toks lines.now) }
{
    match lines.count() {
        1 => is_word(lines, 0, b"import"),
        2 => {
            let sharp = begins_with_sharp(lines);
            (sharp & is_word(lines, 1, b"include"))
                | (sharp & is_word(lines, 1, b"include_next"))
                | (is_word(lines, 0, b"export") & is_word(lines, 1, b"import"))
        }
        _ => false,
    }
}

fn begins_condition(lines: &OpenLines) -> bool
    requires { IsSound lines.now }
    ensures { result ≡ begins_condition (open_toks lines.now) }
{
    begins_with_sharp(lines) & (is_word(lines, 1, b"if") | is_word(lines, 1, b"elif"))
}

fn ends_in_test(lines: &OpenLines) -> bool
    requires { IsSound lines.now }
    ensures { result ≡ ends_in_test (open_toks lines.now) }
{
    let count = lines.count();
    if count < 2 {
        return false;
    }
    if !is_word(lines, count - 1, b"(") {
        return false;
    }
    is_word(lines, count - 2, b"__has_include") | is_word(lines, count - 2, b"__has_include_next")
}

/// Whether after the open tokens a header name is tried first ([lex.header]): after `#include` and `#include_next`, after
/// a leading `import`, with or without `export`, and after `__has_include (` and `__has_include_next (` in a condition.
pub fn wants_header(lines: &OpenLines) -> bool
    requires { IsSound lines.now }
    ensures { result ≡ wants_header (open_toks lines.now) }
{
    if ends_in_test(lines) {
        are_before_header(lines) | begins_condition(lines)
    } else {
        are_before_header(lines)
    }
}
