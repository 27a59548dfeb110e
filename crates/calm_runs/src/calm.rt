// Calm bytes, sixteen at a time.
ghost use Rattle.std.specs.Prelude.{◌≡◌, ◌+◌, ◌<◌, ◌≤◌, ◌==◌, ℕ, true, map, length, take, drop, slice_index, if◌then◌else◌};
ghost use Rattle.std.specs.List.{list_all};
ghost use Rattle.calm_runs.specs.Runs.{is_calm};
ghost use Rattle.calm_runs.specs.Lanes.{marked};

use std::simd::prelude::*;

// The sixteen bytes from the place on.
fn load(written: &[u8], i: usize) -> u8x16
    requires { i + 16 ≤ length written.now }
    ensures { result ≡ take 16 (drop i written.now) }
{
    u8x16::from_slice(&written[i..])
}

// All bits of the lanes that hold the byte.
fn equal_to(bytes: u8x16, byte: u8) -> u8x16
    ensures { result ≡ map (λ c. if c == byte then 255 else 0) bytes }
{
    bytes
        .simd_eq(u8x16::splat(byte))
        .select(u8x16::splat(255), u8x16::splat(0))
}

// The top bit of each lane is set that holds no calm byte.
fn marked(bytes: u8x16) -> u8x16
    ensures { result ≡ map marked bytes }
{
    bytes
        | equal_to(bytes, b'\n')
        | equal_to(bytes, b'\r')
        | equal_to(bytes, b'"')
        | equal_to(bytes, b'\'')
        | equal_to(bytes, b'/')
        | equal_to(bytes, b'\\')
}

// How many of the sixteen bytes from the place on are calm, up to the first that isn't.
fn calm_lanes(written: &[u8], i: usize) -> usize
    requires { i + 16 ≤ length written.now }
    ensures within { result ≤ 16 }
    ensures all { (k : ℕ) → i ≤ k → k < i + result → is_calm (slice_index written.now k) ≡ true }
{
    let lanes = marked(load(written, i));
    let marks = lanes.simd_ge(u8x16::splat(128)).to_bitmask();
    if marks == 0 {
        16
    } else {
        marks.trailing_zeros() as usize
    }
}

// Whether the byte shows as it is written, and neither a literal, a comment nor a character past ASCII begins with it.
fn is_calm(byte: u8) -> bool
    ensures { result ≡ is_calm byte }
{
    byte < 128 && !matches!(byte, b'\n' | b'\r' | b'"' | b'\'' | b'/' | b'\\')
}

// The place up to which the bytes from `from` on are calm.
fn calm_to(written: &[u8], from: usize) -> usize
    requires within { from ≤ length written.now }
    requires before { list_all is_calm (take from written.now) ≡ true }
    ensures within { result ≤ length written.now }
    ensures all { list_all is_calm (take result written.now) ≡ true }
{
    for i in from..written.len() {
        if !is_calm(written[i]) {
            return i;
        }
    }
    written.len()
}

// How many calm bytes the text begins with.
pub fn calm_len(written: &[u8]) -> usize
    ensures within { result ≤ length written.now }
    ensures all { list_all is_calm (take result written.now) ≡ true }
{
    let mut len = 0;
    'lanes: while written.len() - len >= 16 {
        let calm = calm_lanes(written, len);
        len += calm;
        if calm < 16 {
            return len;
        }
    }
    calm_to(written, len)
}
