ghost use Rattle.std.specs.Prelude.{◌≡◌, ◌+◌, ◌≤◌, IsTrue, Some, None, drop, length, MatchOption};
ghost use Rattle.line_splice.specs.Cursor.{text_of, rest};
ghost use Rattle.scan_model.specs.Spelling.{opens_raw, encoding_len, after_raw};
ghost use Rattle.scan_model.specs.Tokens.{bytes, written_after, raw_lexeme};
ghost use Rattle.lexeme_reader.specs.Fronts.{line};
ghost use Rattle.lexeme_reader.specs.Raws.{IsDelimiter, ContinuesRaw, read_raw, FitsText};

use crate::name::pass_name;
use crate::quoted::encoding_len;
use crate::raw_text::{close, delimiter_len};
use crate::steps::{pass_bytes, pass_line};
use line_splice::Cursor;

/// The parts of a raw string's spelling, in their order. What shows of its front, what is written inside, and what shows
/// of its suffix: the bytes between the cursor `suffix` and the cursor that was passed.
#[derive(Clone, Copy)]
pub struct RawParts<'a> {
    /// Whether the delimiter closes it. An unclosed one reaches the text's end, and makes a stray token.
    pub closed: bool,
    /// How many bytes show in front, up to the opening quote and with it.
    pub intro: usize,
    /// The place in the text that follows the opening quote.
    pub start: usize,
    /// The place in the text that follows the closing quote, or the text's end.
    pub end: usize,
    /// Stands where the suffix begins, if there is one.
    pub suffix: Cursor<'a>,
}

/// How the token that `R"` begins is spelled.
#[derive(Clone, Copy)]
pub enum RawSpelling<'a> {
    /// No good delimiter and `(` follow: a stray token of all that shows of the line.
    Shown,
    /// A raw string.
    Written(RawParts<'a>),
}

// Passes the prefix, `R` and the opening quote, and gives the place in the text that follows the quote.
fn pass_raw_quote(at: &mut Cursor<'_>) -> usize
    requires { IsTrue (opens_raw (line (rest at.old))) }
    ensures text { text_of at.new ≡ text_of at.old }
    ensures start { result ≤ length (text_of at.old) }
    ensures written { written_after (text_of at.old) (drop (encoding_len (bytes (rest at.old)) + 1) (rest at.old))
        ≡ drop result (text_of at.old) }
    ensures within { encoding_len (bytes (rest at.old)) + 2 ≤ length (rest at.old) }
    ensures rest { rest at.new ≡ drop (encoding_len (bytes (rest at.old)) + 2) (rest at.old) }
{
    let len = encoding_len(at);
    pass_bytes(at, len + 1);
    let place = at.raw_from();
    pass_bytes(at, 1);
    place + 1
}

// The place that follows the closing quote of a raw string whose delimiter begins at `start`.
fn raw_end(text: &[u8], start: usize, len: usize) -> Option<usize>
    requires start { start ≤ length text.now }
    requires delimiter { IsDelimiter len (drop start text.now) }
    ensures { MatchOption result (after_raw (drop start text.now) ≡ None)
        (λ end. (start ≤ end) × (end ≤ length text.now) × (after_raw (drop start text.now) ≡ Some (drop end text.now))) }
{
    let inside = start + len + 1;
    match close(&text[inside..], &text[start..start + len]) {
        Some(taken) => Some(inside + taken),
        None => None,
    }
}

// Passes the inside of a raw string, its closing quote and its suffix, from the cursor after the opening quote on.
fn pass_inside<'a>(at: &mut Cursor<'a>, intro: usize, start: usize, len: usize) -> RawParts<'a>
    requires start { start ≤ length (text_of at.old) }
    requires delimiter { IsDelimiter len (drop start (text_of at.old)) }
    ensures text { text_of at.new ≡ text_of at.old }
    ensures intro { result.intro ≡ intro }
    ensures raw { ContinuesRaw result start (text_of at.old) (rest at.old) (rest at.new) }
{
    let text = at.text();
    match raw_end(text, start, len) {
        Some(end) => {
            at.pass_to(end);
            let suffix = *at;
            pass_name(at);
            RawParts {
                closed: true,
                intro,
                start,
                end,
                suffix,
            }
        }
        None => {
            at.pass_to(text.len());
            RawParts {
                closed: false,
                intro,
                start,
                end: text.len(),
                suffix: *at,
            }
        }
    }
}

/// Passes the token that `R"`, after `u8`, `u`, `U`, `L` or no prefix, begins here, and gives its spelling
/// ([lex.string]): a raw string with its suffix, one that no delimiter closes, or the rest of the line.
pub fn pass_raw<'a>(at: &mut Cursor<'a>) -> RawSpelling<'a>
    requires { IsTrue (opens_raw (line (rest at.old))) }
    ensures text { text_of at.new ≡ text_of at.old }
    ensures lexeme { raw_lexeme (text_of at.old) (rest at.old) ≡ read_raw result (text_of at.old) (rest at.old) }
    ensures rest { rest at.new ≡ (raw_lexeme (text_of at.old) (rest at.old)).left }
    ensures fits { FitsText result (text_of at.old) (rest at.old) }
{
    let text = at.text();
    let intro = encoding_len(at) + 2;
    let mut inside = *at;
    let start = pass_raw_quote(&mut inside);
    match delimiter_len(&text[start..]) {
        Some(len) => {
            let parts = pass_inside(&mut inside, intro, start, len);
            *at = inside;
            RawSpelling::Written(parts)
        }
        None => {
            pass_line(at);
            RawSpelling::Shown
        }
    }
}
