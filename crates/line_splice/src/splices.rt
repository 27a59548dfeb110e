ghost use Rattle.std.specs.Prelude.{◌≡◌, ◌↔◌, ◌+◌, ◌-◌, ◌<◌, ◌≤◌, ℕ, length, take, drop, slice_index, IsTrue, IsFalse, MatchOption};
ghost use Rattle.scan_model.specs.Spliced.{shown, mark_len};
ghost use Rattle.scan_model.specs.Limits.{file_limit};
ghost use Rattle.line_splice.specs.Plain.{shows_itself, newlines, BeginsPlain};
ghost use Rattle.line_splice.specs.Rest.{at_splice, newline_len, IsEnd, Shows};

use std::simd::prelude::*;

// How many bytes the newline takes that the text begins with, or 0.
fn newline_len(text: &[u8]) -> usize
    ensures len { result ≡ newline_len text.now }
    ensures within { result ≤ length text.now }
{
    if text.len() > 0 && text[0] == b'\n' {
        1
    } else if text.len() > 1 && text[0] == b'\r' && text[1] == b'\n' {
        2
    } else {
        0
    }
}

// How many bytes the splices take that the text begins with, and how many lines they end.
pub fn splices_len(text: &[u8]) -> (usize, u32)
    requires { length text.now ≤ file_limit }
    ensures within { result.0 ≤ length text.now }
    ensures few { result.1 ≤ result.0 }
    ensures all { IsFalse (at_splice (drop result.0 text.now)) }
    ensures same { (last place line : ℕ) → shown last 0 place line text.now
        ≡ shown last 0 (place + result.0) (line + result.1) (drop result.0 text.now) }
{
    let mut len = 0;
    let mut lines = 0;
    while len < text.len() && text[len] == b'\\' {
        let newline = newline_len(&text[len + 1..]);
        if newline == 0 {
            break;
        }
        len += 1 + newline;
        lines += 1;
    }
    (len, lines)
}

// Whether phase 2 leaves the byte as it is.
fn shows_itself(byte: u8) -> bool
    ensures { result ≡ shows_itself byte }
{
    !((byte == b'\\') | (byte == b'\r') | (byte == b'\n'))
}

// Whether the text begins with a byte that phase 2 leaves as it is, and another one follows it that is no backslash.
pub fn begins_plain(text: &[u8]) -> bool
    ensures { IsTrue result ↔ BeginsPlain text.now }
{
    text.len() > 1 && shows_itself(text[0]) && text[1] != b'\\'
}

// How many of the next 32 bytes end a line.
fn newlines_at(written: &[u8], place: usize) -> u32
    requires { place + 32 ≤ length written.now }
    ensures count { result ≡ newlines (take 32 (drop place written.now)) }
    ensures few { result ≤ 32 }
{
    u8x32::from_slice(&written[place..])
        .simd_eq(u8x32::splat(b'\n'))
        .to_bitmask()
        .count_ones()
}

// How many lines the bytes end, one by one.
fn few_newlines(written: &[u8]) -> u32
    requires { length written.now ≤ file_limit }
    ensures count { result ≡ newlines written.now }
    ensures few { result ≤ length written.now }
{
    let mut count = 0;
    for byte in written {
        if *byte == b'\n' {
            count += 1;
        }
    }
    count
}

// How many lines the bytes end.
pub fn newlines(written: &[u8]) -> u32
    requires { length written.now ≤ file_limit }
    ensures count { result ≡ newlines written.now }
    ensures few { result ≤ length written.now }
{
    let mut count = 0;
    let mut passed = 0;
    while passed + 32 <= written.len() {
        count += newlines_at(written, passed);
        passed += 32;
    }
    count + few_newlines(&written[passed..])
}

// Where the last of the bytes ends that phase 2 leaves as it is, or 0 where there is none.
pub fn plain_end(written: &[u8]) -> usize
    ensures within { result ≤ length written.now }
    ensures plain { 0 < result → IsTrue (shows_itself (slice_index written.now (result - 1))) }
{
    let mut end = written.len();
    while end > 0 && !shows_itself(written[end - 1]) {
        end -= 1;
    }
    end
}

// The byte that shows first, how many bytes of the text it takes, and how many lines it ends. The byte that showed
// last tells whether a newline is to be added at the end.
pub fn front(text: &[u8], last: u8) -> Option<(u8, usize, u32)>
    requires { IsFalse (at_splice text.now) }
    ensures { MatchOption result (IsEnd last text.now) (λ found. Shows last text.now found.0 found.1 found.2) }
{
    // Most bytes show as they are.
    if text.len() > 0 && shows_itself(text[0]) {
        return Some((text[0], 1, 0));
    }
    let newline = newline_len(text);
    if newline > 0 {
        Some((b'\n', newline, 1))
    } else if text.len() > 0 {
        Some((text[0], 1, 0))
    } else if last == b'\n' {
        None
    } else {
        Some((b'\n', 0, 0))
    }
}

// How many bytes the byte order mark takes.
pub fn mark_len(text: &[u8]) -> usize
    ensures len { result ≡ mark_len text.now }
    ensures within { result ≤ length text.now }
{
    if text.starts_with(&[0xEF, 0xBB, 0xBF]) {
        3
    } else {
        0
    }
}
