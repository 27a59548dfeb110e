ghost use Rattle.std.specs.Prelude.{◌≡◌};
ghost use Rattle.line_splice.specs.Cursor.{rest};
ghost use Rattle.scan_model.specs.Tokens.{begins};
ghost use Rattle.reducer.specs.Directives.{may_lead, may_begin_directive, begins_text};

use line_splice::Cursor;

// Whether these bytes show here.
fn begins(at: &Cursor<'_>, word: &[u8]) -> bool
    ensures { result ≡ begins word.now (rest at.now) }
{
    let mut next = *at;
    'word: for byte in word {
        match next.peek() {
            Some(shown) => {
                if shown != *byte {
                    return false;
                }
                next.advance();
            }
            None => return false,
        }
    }
    true
}

// Whether one of the tokens with which a directive may begin, or a longer one, stands here.
fn may_begin_directive(at: &Cursor<'_>) -> bool
    ensures { result ≡ may_begin_directive (rest at.now) }
{
    begins(at, b"#")
        || begins(at, b"%:")
        || begins(at, b"import")
        || begins(at, b"module")
        || begins(at, b"export")
}

// Whether one of those tokens begins with the byte.
fn may_lead(byte: u8) -> bool
    ensures { result ≡ may_lead byte }
{
    (byte == b'#') | (byte == b'%') | (byte == b'i') | (byte == b'm') | (byte == b'e')
}

/// Whether a token stands here that tells at a line's front that the line is no directive.
pub(crate) fn begins_text(at: &Cursor<'_>) -> bool
    ensures { result ≡ begins_text (rest at.now) }
{
    match at.peek() {
        Some(byte) => byte != b'\n' && !(may_lead(byte) && may_begin_directive(at)),
        None => false,
    }
}
