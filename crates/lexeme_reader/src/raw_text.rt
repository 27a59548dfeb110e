ghost use Rattle.std.specs.Prelude.{◌≡◌, ◌+◌, ◌≤◌, ◌++◌, Some, None, [], ◌∷◌, length, drop, take, false, MatchOption};
ghost use Rattle.scan_model.specs.Spelling.{is_delimited, after_word};
ghost use Rattle.lexeme_reader.specs.Raws.{in_delimiter, IsDelimiter};

use memchr::memmem;

// Whether the byte may stand in a delimiter.
fn in_delimiter(byte: u8) -> bool
    ensures { result ≡ in_delimiter byte }
{
    let is_blank = (byte == b' ')
        | (byte == b'\t')
        | (byte == 0x0B)
        | (byte == 0x0C)
        | (byte == b'\r');
    !(is_blank | (byte == b'\n') | (byte == b')') | (byte == b'\\'))
}

// The length of the delimiter that the text begins with, where one of at most 16 bytes and `(` do.
pub fn delimiter_len(written: &[u8]) -> Option<usize>
    ensures { MatchOption result (is_delimited written.now ≡ false) (λ len. IsDelimiter len written.now) }
{
    let most = written.len().min(17);
    'delimiter: for i in 0..most {
        let byte = written[i];
        if byte == b'(' {
            return Some(i);
        }
        if !in_delimiter(byte) {
            return None;
        }
    }
    None
}

// `)`, the delimiter and `"`, and zeros after them.
fn closing(delimiter: &[u8]) -> [u8; 18]
    requires { length delimiter.now ≤ 16 }
    ensures { take (length delimiter.now + 2) result ≡ 41 ∷ delimiter.now ++ 34 ∷ [] }
{
    let len = delimiter.len();
    let mut closing = [0; 18];
    closing[0] = b')';
    closing[1..1 + len].copy_from_slice(delimiter);
    closing[1 + len] = b'"';
    closing
}

// How many bytes there are up to the first `)`, delimiter and `"`, with these.
pub fn close(inside: &[u8], delimiter: &[u8]) -> Option<usize>
    requires { length delimiter.now ≤ 16 }
    ensures { MatchOption result (after_word (41 ∷ delimiter.now ++ 34 ∷ []) inside.now ≡ None)
        (λ len. (len ≤ length inside.now) × (after_word (41 ∷ delimiter.now ++ 34 ∷ []) inside.now ≡ Some (drop len inside.now))) }
{
    let len = delimiter.len() + 2;
    match memmem::find(inside, &closing(delimiter)[..len]) {
        Some(at) => Some(at + len),
        None => None,
    }
}
