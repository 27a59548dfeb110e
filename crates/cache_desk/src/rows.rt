//! The rows of a shard's events.
ghost use Rattle.std.specs.Prelude.{◌≡◌, ◌+◌, ◌≤◌, ◌++◌, [], ◌∷◌, ℕ, List, IsSome, All, length, vec_capacity};
ghost use Rattle.std.specs.Option.{ForSome};
ghost use Rattle.shard_cache.specs.Places.{place_of, IsIndexOf};
ghost use Rattle.cache_desk.specs.Desk.{path_of, row_and, rows_in};

use crate::happened::Happened;
use file_source::Source;
use shard_cache::{KeptRow, Places};

/// The rows that these events published, in order, in the room of `rows`, and their index. It takes no memory.
pub(crate) fn rows_of<S: Source>(
    events: Vec<Happened<S>>,
    mut rows: Vec<KeptRow<S>>,
    mut places: Places,
) -> (Vec<KeptRow<S>>, Places)
    requires known { All (λ event. IsSome (place_of places (path_of event))) events.items }
    requires room { (rows.items ≡ []) × (length (rows_in events.items) ≤ vec_capacity rows) }
    ensures rows { result.0.items ≡ rows_in events.items }
    ensures index { IsIndexOf (λ row. row.path) result.0.items result.1 }
{
    'events: for event in events {
        add_published(&mut rows, &mut places, event.into_row());
    }
    (rows, places)
}

// Adds a row, if there is one.
fn add_published<S: Source>(
    rows: &mut Vec<KeptRow<S>>,
    places: &mut Places,
    row: Option<KeptRow<S>>,
)
    requires room { length rows.old.items + length (row_and row []) ≤ vec_capacity rows.old }
    requires known { ForSome row (λ r. IsSome (place_of places.old r.path)) }
    requires index { IsIndexOf (λ r. r.path) rows.old.items places.old }
    ensures rows { rows.new.items ≡ rows.old.items ++ row_and row [] }
    ensures room { vec_capacity rows.new ≡ vec_capacity rows.old }
    ensures index { IsIndexOf (λ r. r.path) rows.new.items places.new }
    ensures known { (path : List ℕ) → IsSome (place_of places.old path) → IsSome (place_of places.new path) }
{
    match row {
        Some(row) => add_row(rows, places, row),
        None => {}
    }
}

// Adds a row to those of a shard, where its path has a place in the index.
fn add_row<S: Source>(rows: &mut Vec<KeptRow<S>>, places: &mut Places, row: KeptRow<S>)
    requires room { length rows.old.items + 1 ≤ vec_capacity rows.old }
    requires known { IsSome (place_of places.old row.path) }
    requires index { IsIndexOf (λ row. row.path) rows.old.items places.old }
    ensures rows { rows.new.items ≡ rows.old.items ++ row ∷ [] }
    ensures room { vec_capacity rows.new ≡ vec_capacity rows.old }
    ensures index { IsIndexOf (λ row. row.path) rows.new.items places.new }
    ensures known { (path : List ℕ) → IsSome (place_of places.old path) → IsSome (place_of places.new path) }
{
    let place = rows.len();
    places.change(row.path.as_slice(), place);
    rows.push_reserved(row);
}
