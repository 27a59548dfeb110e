ghost use Rattle.std.specs.Prelude.{◌≡◌, ◌≢◌, ◌+◌, ◌-◌, ◌≤◌, ◌<◌, ◌↔◌, [], length, drop, take, slice_index, IsTrue, IsFalse, if◌then◌else◌};
ghost use Rattle.std.specs.List.{list_all};
ghost use Rattle.scan_model.specs.Tokens.{bytes, from_place};
ghost use Rattle.scan_model.specs.Spliced.{spliced, last_line, byte_at, line_at, place_at};
ghost use Rattle.scan_model.specs.Limits.{file_limit};
ghost use Rattle.line_splice.specs.Rest.{at_splice, rest_of};

use crate::splices::{begins_plain, front, mark_len, newlines, plain_end, splices_len};

/// A place among the bytes of a text that show after phase 2 ([lex.phases]): without a byte order mark, with each
/// backslash that stands before a newline taken away with it, with LF for CR LF, and with an LF added where the last
/// byte that shows is none.
#[derive(Clone, Copy)]
pub struct Cursor<'a> {
    text: &'a [u8],
    // where the next byte lies, and its line
    place: usize,
    line: u32,
    // the byte that showed last, or 0
    last: u8,
    ghost small: { length text.now ≤ file_limit },
    ghost within: { place ≤ length text.now },
    ghost few_lines: { line ≤ place + 1 },
    ghost shows: { IsFalse (at_splice (drop place text.now)) },
    ghost ends: { last_line line (rest_of text.now place line last) ≡ last_line 1 (spliced text.now) },
}

// At the end the line stays that of the last byte.
fn line_after(is_end: bool, line: u32, next: u32) -> u32
    ensures { result ≡ (if is_end then line else next) }
{
    if is_end { line } else { next }
}

impl<'a> Cursor<'a> {
    ghost use Rattle.line_splice.specs.Cursor.{text_of, rest};
    ghost use Rattle.line_splice.specs.Plain.{shows_itself, shows_or_ends, ahead_of};

    /// Stands at the first byte that shows. A text has at most 32 MiB.
    #[tactic(auto, unfolding(crate::specs::Cursor::rest))]
    pub fn new(text: &'a [u8]) -> Cursor<'a>
        requires { length text.now ≤ file_limit }
        ensures text { text_of result ≡ text.now }
        ensures rest { rest result ≡ spliced text.now }
    {
        let mark = mark_len(text);
        let (hidden, lines) = splices_len(&text[mark..]);
        Cursor {
            text,
            place: mark + hidden,
            line: 1 + lines,
            last: 0,
        }
    }

    /// The next byte. None exactly at the end.
    #[tactic(auto, unfolding(crate::specs::Cursor::rest))]
    pub fn peek(&self) -> Option<u8>
        ensures value { result ≡ byte_at (rest self.now) }
    {
        match front(&self.text[self.place..], self.last) {
            Some((byte, _, _)) => Some(byte),
            None => None,
        }
    }

    /// Whether no byte is left.
    #[tactic(auto, unfolding(crate::specs::Cursor::rest))]
    pub fn is_end(&self) -> bool
        ensures { IsTrue result ↔ (rest self.now ≡ []) }
    {
        match front(&self.text[self.place..], self.last) {
            Some(_) => false,
            None => true,
        }
    }

    /// The physical line, from 1, of the next byte, and at the end that of the last.
    #[tactic(auto, unfolding(crate::specs::Cursor::rest))]
    pub fn line(&self) -> u32
        ensures value { result ≡ line_at (text_of self.now) (rest self.now) }
        ensures small { result ≤ 33554433 }
    {
        self.line
    }

    /// The place in the text of the next byte, and at the end the length of the text. A raw string is read from there
    /// as it is written, since phase 2 is undone in it ([lex.pptoken]).
    #[tactic(auto, unfolding(crate::specs::Cursor::rest))]
    pub fn raw_from(&self) -> usize
        ensures { result ≡ place_at (text_of self.now) (rest self.now) }
    {
        self.place
    }

    /// The whole text as it is written.
    pub fn text(&self) -> &'a [u8]
        ensures { result.now ≡ text_of self.now }
    {
        self.text
    }

    /// The text as it is written from the place of the next byte on.
    #[tactic(auto, unfolding(crate::specs::Cursor::rest))]
    pub fn ahead(&self) -> &'a [u8]
        ensures { result.now ≡ ahead_of (text_of self.now) (rest self.now) }
    {
        &self.text[self.place..]
    }

    /// Passes the next `count` bytes, which have to show as they are written: none of the bytes ahead, as many, is a
    /// backslash, CR or LF.
    #[tactic(auto, unfolding(crate::specs::Cursor::rest))]
    pub fn pass_plain(&mut self, count: usize)
        requires within { count ≤ length (ahead_of (text_of self.old) (rest self.old)) }
        requires plain { IsTrue (list_all shows_itself (take count (ahead_of (text_of self.old) (rest self.old)))) }
        ensures text { text_of self.new ≡ text_of self.old }
        ensures rest { rest self.new ≡ drop count (rest self.old) }
        ensures written { bytes (take count (rest self.old)) ≡ take count (ahead_of (text_of self.old) (rest self.old)) }
    {
        if count == 0 {
            return;
        }
        let end = self.place + count;
        let (hidden, lines) = splices_len(&self.text[end..]);
        *self = Cursor {
            text: self.text,
            place: end + hidden,
            line: self.line + lines,
            last: self.text[end - 1],
        };
    }

    /// Passes the next `count` bytes, newlines among them, which have to show as they are written: none of the bytes ahead, as
    /// many, is a backslash or CR, and a byte follows them that is no backslash.
    #[tactic(auto, unfolding(crate::specs::Cursor::rest))]
    pub fn pass_lines(&mut self, count: usize)
        requires within { count < length (ahead_of (text_of self.old) (rest self.old)) }
        requires unspliced { IsTrue (list_all shows_or_ends (take count (ahead_of (text_of self.old) (rest self.old)))) }
        requires next { slice_index (ahead_of (text_of self.old) (rest self.old)) count ≢ 92 }
        ensures text { text_of self.new ≡ text_of self.old }
        ensures rest { rest self.new ≡ drop count (rest self.old) }
        ensures written { bytes (take count (rest self.old)) ≡ take count (ahead_of (text_of self.old) (rest self.old)) }
    {
        if count == 0 {
            return;
        }
        let end = self.place + count;
        let lines = newlines(&self.text[self.place..end]);
        *self = Cursor {
            text: self.text,
            place: end,
            line: self.line + lines,
            last: self.text[end - 1],
        };
    }

    // Passes the next `count` bytes of the text as they are written, whatever of them shows. The last of them has to
    // show as it is written.
    #[tactic(auto, unfolding(crate::specs::Cursor::rest))]
    fn pass_written(&mut self, count: usize)
        requires within { count ≤ length (ahead_of (text_of self.old) (rest self.old)) }
        requires plain { 0 < count → IsTrue (shows_itself (slice_index (ahead_of (text_of self.old) (rest self.old)) (count - 1))) }
        ensures text { text_of self.new ≡ text_of self.old }
        ensures rest { rest self.new ≡ from_place (place_at (text_of self.old) (rest self.old) + count) (rest self.old) }
    {
        if count == 0 {
            return;
        }
        let end = self.place + count;
        let ended = newlines(&self.text[self.place..end]);
        let (hidden, lines) = splices_len(&self.text[end..]);
        *self = Cursor {
            text: self.text,
            place: end + hidden,
            line: self.line + ended + lines,
            last: self.text[end - 1],
        };
    }

    // Goes on to the place, byte by byte.
    fn walk_to(&mut self, place: usize)
        ensures text { text_of self.new ≡ text_of self.old }
        ensures rest { rest self.new ≡ from_place place (rest self.old) }
    {
        'to: while !self.is_end() {
            if self.raw_from() >= place {
                break;
            }
            self.advance();
        }
    }

    /// Goes on to the first byte that lies at the place in the text or after it, and nowhere if the next byte does.
    pub fn pass_to(&mut self, place: usize)
        ensures text { text_of self.new ≡ text_of self.old }
        ensures rest { rest self.new ≡ from_place place (rest self.old) }
    {
        let ahead = self.ahead();
        let most = place.saturating_sub(self.raw_from()).min(ahead.len());
        // Up to the last byte that shows as it is written it is of no account what shows.
        let count = plain_end(&ahead[..most]);
        self.pass_written(count);
        self.walk_to(place);
    }

    /// Passes the next byte.
    #[tactic(auto, unfolding(crate::specs::Cursor::rest))]
    pub fn advance(&mut self)
        requires { rest self.old ≢ [] }
        ensures text { text_of self.new ≡ text_of self.old }
        ensures rest { rest self.new ≡ drop 1 (rest self.old) }
    {
        if begins_plain(&self.text[self.place..]) {
            *self = Cursor {
                text: self.text,
                place: self.place + 1,
                line: self.line,
                last: self.text[self.place],
            };
        } else {
            self.advance_any();
        }
    }

    // The same, whatever stands here.
    #[tactic(auto, unfolding(crate::specs::Cursor::rest))]
    fn advance_any(&mut self)
        requires { rest self.old ≢ [] }
        ensures text { text_of self.new ≡ text_of self.old }
        ensures rest { rest self.new ≡ drop 1 (rest self.old) }
    {
        let left = &self.text[self.place..];
        if let Some((byte, taken, below)) = front(left, self.last) {
            let (hidden, lines) = splices_len(&left[taken..]);
            let place = self.place + taken + hidden;
            let line = line_after(
                (place == self.text.len()) & (byte == b'\n'),
                self.line,
                self.line + below + lines,
            );
            *self = Cursor {
                text: self.text,
                place,
                line,
                last: byte,
            };
        }
    }
}
