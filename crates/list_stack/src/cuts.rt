ghost use Rattle.std.specs.Prelude.{◌≡◌, ◌≤◌, ◌<◌, ◌^◌, ◌++◌, length, reverse, IfOk, slice_index_or};
ghost use Rattle.scan_model.specs.TokenTests.{is_comma};
ghost use Rattle.list_stack.specs.Places.{AreLinked, Closes, HasComma, CutsAt, floor};

use crate::entry::{Entry, places_below};
use scan_model::NoMemory;
use std::alloc::Global;

/// The place above which the list at work lies, by the places where lists end, of which the last is its own.
pub(crate) fn floor(ends: &[usize]) -> usize
    requires { floor (reverse ends.now) < 2 ^ 64 }
    ensures { result ≡ floor (reverse ends.now) }
{
    match ends.last() {
        Some(end) => *end + 1,
        None => 0,
    }
}

/// The place of the `)`, where the list at work, above `floor`, begins with parentheses.
pub(crate) fn close_of_first(entries: &[Entry], floor: usize) -> Option<usize>
    requires { AreLinked entries.now }
    ensures { Closes floor entries.now result }
{
    let count = entries.len();
    if count <= floor {
        return None;
    }
    let top = count - 1;
    if !entries[top].marked.tok.is_open_paren() {
        return None;
    }
    let Some(close) = places_below(entries, top).close else {
        return None;
    };
    if close < floor {
        return None;
    }
    Some(close)
}

fn is_comma_at(entries: &[Entry], place: usize) -> bool
    requires { place < length entries.now }
    ensures { (d : Entry) → result ≡ is_comma (slice_index_or entries.now place d).marked.tok }
{
    entries[place].marked.tok.is_comma()
}

/// The first comma outside parentheses between two places, from the upper one down.
fn next_comma(entries: &[Entry], floor: usize, end: usize) -> Option<usize>
    requires linked { AreLinked entries.now }
    requires above { floor ≤ end }
    requires within { end ≤ length entries.now }
    ensures { HasComma floor end entries.now result }
{
    let mut at = end;
    'at: while let Some(stop) = places_below(entries, at).stop {
        if stop < floor {
            return None;
        }
        if is_comma_at(entries, stop) {
            return Some(stop);
        }
        at = stop;
    }
    None
}

/// The commas, at most this many, at which the list at work, above `floor`, is cut.
pub(crate) fn commas(
    alloc: Global,
    entries: &[Entry],
    floor: usize,
    most: usize,
) -> Result<Vec<usize>, NoMemory>
    requires linked { AreLinked entries.now }
    requires above { floor ≤ length entries.now }
    ensures { IfOk result (λ places. CutsAt most floor entries.now places.items) }
{
    let mut places = Vec::new(alloc);
    let mut at = entries.len();
    'places: while places.len() < most {
        let Some(comma) = next_comma(entries, floor, at) else {
            return Ok(places);
        };
        places.push(comma)?;
        at = comma;
    }
    Ok(places)
}

/// The ends of lists with those of the lists that were cut, of which the first is the uppermost.
pub(crate) fn with_places(ends: Vec<usize>, places: Vec<usize>) -> Result<Vec<usize>, NoMemory>
    ensures { IfOk result (λ all. reverse all.items ≡ places.items ++ reverse ends.items) }
{
    let mut all = ends;
    let mut left = places;
    'left: while let Some(place) = left.pop() {
        all.push(place)?;
    }
    Ok(all)
}
