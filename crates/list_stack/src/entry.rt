ghost use Rattle.std.specs.Prelude.{◌≡◌, OnOk, ◌≤◌, length, [], ◌∷◌};
ghost use Rattle.list_stack.specs.Places.{places_of, part, AreLinked, Adds};

use scan_model::{NoMemory, Tok};
use substitution::Marked;

/// Where the first ones outside parentheses are in a list of tokens: how many tokens follow them down to the lowest
/// entry, which is their place among the entries. None where there are none.
#[derive(Clone, Copy)]
pub(crate) struct Places {
    /// The first `)`.
    pub(crate) close: Option<usize>,
    /// The first `,` or `)`.
    pub(crate) stop: Option<usize>,
}

/// A token, and the places of the list that it begins.
#[derive(Drop)]
pub(crate) struct Entry {
    pub(crate) marked: Marked,
    pub(crate) places: Places,
}

/// The places of the list of this many of the lowest entries.
pub(crate) fn places_below(entries: &[Entry], count: usize) -> Places
    requires linked { AreLinked entries.now }
    requires within { count ≤ length entries.now }
    ensures { result ≡ places_of 0 (part 0 count entries.now) }
{
    if count == 0 {
        return Places {
            close: None,
            stop: None,
        };
    }
    entries[count - 1].places
}

/// The places of the list of all entries after its first `)`.
fn places_past_close(entries: &[Entry]) -> Places
    requires { AreLinked entries.now }
    ensures { result ≡ places_of 1 (part 0 (length entries.now) entries.now) }
{
    match places_below(entries, entries.len()).close {
        Some(close) => places_below(entries, close),
        None => Places {
            close: None,
            stop: None,
        },
    }
}

/// The places of the list that begins with a token, and goes on with all entries.
fn places_from(tok: &Tok, entries: &[Entry]) -> Places
    requires { AreLinked entries.now }
    ensures { (m : Marked) → m.tok ≡ tok.now → result ≡ places_of 0 (m ∷ part 0 (length entries.now) entries.now) }
{
    let count = entries.len();
    let further = if tok.is_open_paren() {
        places_past_close(entries)
    } else {
        places_below(entries, count)
    };
    let closes = tok.is_close_paren();
    let stops = tok.is_comma() || closes;
    Places {
        close: if closes { Some(count) } else { further.close },
        stop: if stops { Some(count) } else { further.stop },
    }
}

/// Puts a token on top. After an `Err` the entries are what they were.
pub(crate) fn push_entry(entries: &mut Vec<Entry>, marked: Marked) -> Result<(), NoMemory>
    requires { AreLinked entries.old.items }
    ensures linked { AreLinked entries.new.items }
    ensures added { OnOk result (Adds entries.old.items entries.new.items (marked ∷ [])) }
    ensures grown { length entries.old.items ≤ length entries.new.items }
{
    let places = places_from(&marked.tok, entries.as_slice());
    entries.push(Entry { marked, places })?;
    Ok(())
}
