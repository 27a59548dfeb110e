//! A shard's state, and its two steps.
ghost use Rattle.std.specs.Prelude.{◌≡◌, ◌++◌, [], ◌∷◌, All};
ghost use Rattle.shard_cache.specs.Rows.{IsRow, shard_number};
ghost use Rattle.shard_cache.specs.Places.{IsIndexOf};
ghost use Rattle.scan_model.specs.TokenTests.{same};
ghost use Rattle.cache_desk.specs.Log.{Standing, Free, after, standing, HasClaim};
ghost use Rattle.cache_desk.specs.Desk.{IsKept, path_of, Tells, Looks, IsDesk, shard_of_desk, entry_of, entries, log_of, fixed_of, row_published};

use crate::Entry;
use crate::happened::{Claimed, Happened, Published};
use crate::rows::rows_of;
use crate::telling::answer_of;
use file_source::Source;
use reducer::Answer;
use scan_model::{NoMemory, PathText};
use shard_cache::{KeptRow, MOST_ROWS, Places, Shard};
use std::alloc::Global;
use std::marker::Model;
use turn_lock::Logged;

/// A shard: a source, and what happened to its paths, in order.
#[derive(Drop)]
pub struct Desk<S: Source> {
    alloc: Global,
    number: u32,
    source: S,
    events: Vec<Happened<S>>,
    /// The place of each path's last event.
    places: Places,
    /// How many paths are claimed, and how many of them aren't published yet.
    claims: usize,
    open: usize,
    /// Empty; its room is for the rows that the closed shard keeps.
    rows: Vec<KeptRow<S>>,
}

/// How a path stands: nobody has it, it is claimed, or it is done, with its row.
#[derive(Clone, Copy)]
pub(crate) enum Spot<R> {
    Free,
    Claimed,
    Done(R),
}

/// What a look at a path gives.
pub enum Found<S: Source> {
    Done(Answer),
    /// The path is claimed now. This is its copy, and the right to read it.
    Mine(PathText, S::Opener),
    Busy,
}

impl<S: Source> Model for Desk<S> {
    ghost use Rattle.cache_desk.specs.Desk.{DeskView};

    ghost Value = { DeskView S S.Opener S.Given };

    ghost use Rattle.std.specs.Prelude.{◌≡◌, ◌+◌, ◌≤◌, ◌^◌, [], length, vec_capacity};
    ghost use Rattle.shard_cache.specs.Rows.{IsRow};
    ghost use Rattle.shard_cache.specs.Places.{IsIndexOf};
    ghost use Rattle.cache_desk.specs.Desk.{IsDesk, HasRoom, entries, path_of, rows_in};

    ghost view = { λ s. record { number = s.number; asked = S.asked s.source; origin = S.origin s.source; events = s.events.items } };

    ghost invariant = { λ s.
        IsDesk S.given_outcome S.given_bytes (IsRow S.given_path S.given_outcome S.given_bytes) S.given_origin (record { number = s.number; asked = S.asked s.source; origin = S.origin s.source; events = s.events.items })
        × HasRoom (entries S.given_outcome S.given_bytes s.events.items) s.claims s.open (vec_capacity s.events) (vec_capacity s.rows) × (s.rows.items ≡ [])
        × IsIndexOf path_of s.events.items s.places × (length (rows_in s.events.items) + s.open ≡ s.claims) × (s.claims ≤ 2 ^ 59) };
}

impl<S: Source> Logged for Desk<S> {
    type Entry = Entry;

    ghost use Rattle.cache_desk.specs.Desk.{log_of, fixed_of};
    ghost use Rattle.cache_desk.specs.Log.{maker};

    ghost log = { log_of S.given_outcome S.given_bytes };

    ghost maker = { maker };

    ghost fixed = { fixed_of };
}

// How the path stands after one event more.
fn spot_after<'a, S: Source>(
    spot: Spot<&'a KeptRow<S>>,
    event: &'a Happened<S>,
    path: &[u8],
) -> Spot<&'a KeptRow<S>>
    requires { IsKept (IsRow S.given_path S.given_outcome S.given_bytes) event.now }
    ensures { (s : Standing) → Tells S.given_outcome S.given_bytes (IsRow S.given_path S.given_outcome S.given_bytes) (λ row. row.now) spot.entry s → Tells S.given_outcome S.given_bytes (IsRow S.given_path S.given_outcome S.given_bytes) (λ row. row.now) result (after (same (path_of event.now) path.now) s (entry_of S.given_outcome S.given_bytes event.now)) }
{
    match event {
        Happened::Claim(claim) => {
            if claim.path.as_slice() == path {
                Spot::Claimed
            } else {
                spot
            }
        }
        Happened::Publication(published) => {
            if published.row.path.as_slice() == path {
                Spot::Done(&published.row)
            } else {
                spot
            }
        }
    }
}

// How the path stands after these events, of which the index has each path's last.
fn spot_of<'a, S: Source>(
    events: &'a [Happened<S>],
    places: &Places,
    path: &[u8],
) -> Spot<&'a KeptRow<S>>
    requires kept { All (IsKept (IsRow S.given_path S.given_outcome S.given_bytes)) events.now }
    requires index { IsIndexOf path_of events.now places.now }
    ensures { Tells S.given_outcome S.given_bytes (IsRow S.given_path S.given_outcome S.given_bytes) (λ row. row.now) result (standing (entries S.given_outcome S.given_bytes events.now) path.now) }
{
    let Some(place) = places.get(path) else {
        return Spot::Free;
    };
    if place >= events.len() {
        return Spot::Free;
    }
    let event = &events[place];
    spot_after(Spot::Free, event, path)
}

impl<S: Source> Desk<S> {
    /// A shard before anything happened.
    pub fn new(alloc: Global, number: u32, source: S) -> Desk<S>
        requires { S.asked source ≡ [] }
        ensures { result ≡ record { number = number; asked = []; origin = S.origin source; events = [] } }
    {
        Desk {
            alloc,
            number,
            source,
            events: Vec::new(alloc),
            places: Places::new(alloc),
            claims: 0,
            open: 0,
            rows: Vec::new(alloc),
        }
    }

    /// Looks at a path of this shard, and claims it where nobody has. Want of memory changes nothing.
    pub fn look(&mut self, alloc: Global, path: &PathText, by: u32) -> Result<Found<S>, NoMemory>
        requires placed { shard_number path.now ≡ self.old.number }
        ensures { Looks S.given_outcome S.given_bytes S.opener_path S.opener_origin path.now by self.old result self.new }
    {
        match spot_of(self.events.as_slice(), &self.places, path.as_slice()) {
            Spot::Done(row) => return Ok(Found::Done(answer_of(row)?)),
            Spot::Claimed => return Ok(Found::Busy),
            Spot::Free => {}
        }
        self.claim(alloc, path, by)
    }

    // Claims a path that nobody has.
    fn claim(&mut self, alloc: Global, path: &PathText, by: u32) -> Result<Found<S>, NoMemory>
        requires placed { shard_number path.now ≡ self.old.number }
        requires free { standing (log_of S.given_outcome S.given_bytes self.old) path.now ≡ Free }
        ensures { Looks S.given_outcome S.given_bytes S.opener_path S.opener_origin path.now by self.old result self.new }
    {
        if self.claims >= MOST_ROWS {
            return Err(NoMemory);
        }
        let name = path.copy(alloc)?;
        let own = path.copy(alloc)?;
        let key = Vec::from_slice(alloc, path.as_slice())?;
        self.rows.reserve(self.claims + 1)?;
        self.events.reserve(self.open + 2)?;
        let place = self.events.len();
        self.places.put(key, place)?;
        let opener = self.source.ask(alloc, path)?;
        self.events
            .push_reserved(Happened::Claim(Claimed { path: own, by }));
        self.claims += 1;
        self.open += 1;
        Ok(Found::Mine(name, opener))
    }

    /// Publishes the row of a claim. It takes no memory.
    pub fn publish(&mut self, row: KeptRow<S>, by: u32)
        requires placed { shard_number row.path ≡ self.old.number }
        requires claim { HasClaim by row.path (log_of S.given_outcome S.given_bytes self.old) }
        requires fits { IsRow S.given_path S.given_outcome S.given_bytes row }
        requires origin { S.given_origin row.given ≡ self.old.origin }
        ensures log { log_of S.given_outcome S.given_bytes self.new ≡ log_of S.given_outcome S.given_bytes self.old ++ row_published S.given_outcome S.given_bytes row by ∷ [] }
        ensures fixed { fixed_of self.new ≡ fixed_of self.old }
    {
        let place = self.events.len();
        self.places.change(row.path.as_slice(), place);
        self.open -= 1;
        self.events
            .push_reserved(Happened::Publication(Published { row, by }));
    }

    /// The shard of the rows that were published, in order. It takes no memory.
    pub fn into_shard(self) -> Shard<S>
        ensures shard { result ≡ shard_of_desk self }
        ensures desk { IsDesk S.given_outcome S.given_bytes (IsRow S.given_path S.given_outcome S.given_bytes) S.given_origin self }
    {
        let Desk {
            alloc,
            source,
            events,
            places,
            rows,
            ..
        } = self;
        let (rows, places) = rows_of(events, rows, places);
        Shard::of_rows(alloc, source, rows, places)
    }
}
