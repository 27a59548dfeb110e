ghost use Rattle.std.specs.Prelude.{◌≡◌, ◌≢◌, ◌<◌, ◌≤◌, ◌^◌, Some, All, Contains, OnOk, OnErr, IfOk, IfErr, MatchOption, length, slice_get};
ghost use Rattle.shard_cache.specs.Rows.{fresh_shard, asked_also, kept_also};
ghost use Rattle.shard_cache.specs.Places.{IsIndexOf};

use crate::{KeptRow, Places};
use file_source::Source;
use scan_model::{NoMemory, PathText};
use std::alloc::Global;
use std::marker::Model;

/// The most rows of a shard. A row takes more than 16 bytes, so that no memory has room for more of them.
pub const MOST_ROWS: usize = 1 << 59;

/// A source, and the rows of what it gave, in order.
#[derive(Drop)]
pub struct Shard<S: Source> {
    alloc: Global,
    source: S,
    rows: Vec<KeptRow<S>>,
    /// The place of each row, by its path.
    places: Places,
}

impl<S: Source> Model for Shard<S> {
    ghost use Rattle.std.specs.Prelude.{◌≤◌, ◌^◌, length};
    ghost use Rattle.shard_cache.specs.Rows.{ShardView};
    ghost use Rattle.shard_cache.specs.Places.{IsIndexOf};

    ghost Value = { ShardView S S.Opener S.Given };

    ghost view = { λ s. record { asked = S.asked s.source; origin = S.origin s.source; rows = s.rows.items } };

    ghost invariant = { λ s. IsIndexOf (λ row. row.path) s.rows.items s.places × (length s.rows.items ≤ 2 ^ 59) };
}

impl<S: Source> Shard<S> {
    /// A shard without rows.
    pub fn new(alloc: Global, source: S) -> Shard<S>
        ensures { result ≡ fresh_shard S.asked S.origin source }
    {
        Shard {
            alloc,
            source,
            rows: Vec::new(alloc),
            places: Places::new(alloc),
        }
    }

    /// A shard of these rows. `places` has the place of each row by its path. It takes no memory.
    pub fn of_rows(alloc: Global, source: S, rows: Vec<KeptRow<S>>, places: Places) -> Shard<S>
        requires index { IsIndexOf (λ row. row.path) rows.items places }
        requires few { length rows.items ≤ 2 ^ 59 }
        ensures { result ≡ record { asked = S.asked source; origin = S.origin source; rows = rows.items } }
    {
        Shard {
            alloc,
            source,
            rows,
            places,
        }
    }

    /// The source alone.
    pub fn into_source(self) -> S
        ensures { (S.asked result ≡ self.asked) × (S.origin result ≡ self.origin) }
    {
        self.source
    }

    pub(crate) fn ask(&mut self, alloc: Global, path: &PathText) -> Result<S::Opener, NoMemory>
        ensures ok { OnOk result (self.new ≡ asked_also path.now self.old) }
        ensures rows { self.new.rows ≡ self.old.rows }
        ensures opener { IfOk result (λ opener. S.opener_path opener ≡ path.now) }
        ensures opened_here { IfOk result (λ opener. S.opener_origin opener ≡ self.old.origin) }
        ensures err { OnErr result (self.new ≡ self.old) }
    {
        self.source.ask(alloc, path)
    }

    /// Adds the row at the end. `Err` is want of memory: it hands the row back and changes nothing.
    pub(crate) fn add(&mut self, row: KeptRow<S>) -> Result<(), KeptRow<S>>
        ensures ok { OnOk result (self.new ≡ kept_also row self.old) }
        ensures err { IfErr result (λ back. (back ≡ row) × (self.new ≡ self.old)) }
    {
        let place = self.rows.len();
        if place >= MOST_ROWS {
            return Err(row);
        }
        let Ok(key) = Vec::from_slice(self.alloc, row.path.as_slice()) else {
            return Err(row);
        };
        if self.rows.reserve(1).is_err() {
            return Err(row);
        }
        if self.places.put(key, place).is_err() {
            return Err(row);
        }
        self.rows.push_reserved(row);
        Ok(())
    }

    /// The last row of this path; None where no row has it.
    pub(crate) fn find(&self, path: &PathText) -> Option<&KeptRow<S>>
        ensures { MatchOption result (All (λ row. row.path ≢ path.now) self.now.rows) (λ row. (row.now.path ≡ path.now) × Contains self.now.rows row.now) }
    {
        let Some(place) = self.places.get(path.as_slice()) else {
            return None;
        };
        if place >= self.rows.len() {
            return None;
        }
        let row = &self.rows[place];
        if row.path.as_slice() == path.as_slice() {
            Some(row)
        } else {
            None
        }
    }

    /// The number of rows.
    pub(crate) fn len(&self) -> u64
        ensures rows { result ≡ length self.now.rows }
        ensures small { result ≤ 2 ^ 59 }
    {
        self.rows.len() as u64
    }

    pub(crate) fn row(&self, k: u64) -> &KeptRow<S>
        requires { k < length self.now.rows }
        ensures { slice_get self.now.rows k ≡ Some result.now }
    {
        &self.rows[k as usize]
    }
}
