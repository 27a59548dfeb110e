//! How the ends in the workers' shares come into the order of the jobs.
ghost use Rattle.std.specs.Prelude.{◌≡◌, ◌<◌, ◌≤◌, ◌++◌, [], Some, None, ℕ, List, All, IsSome, length, map, vec_len, vec_capacity};
ghost use Rattle.std.specs.List.{flat_map};
ghost use Rattle.worker.specs.Shares.{ends_in};
ghost use Rattle.workers.specs.Places.{AreBelow, ArePlaced};

use scan_model::{Items, UnitEnd};
use worker::Share;

fn put(place: &mut Option<UnitEnd>, end: UnitEnd)
    ensures { place.new ≡ Some end }
{
    *place = Some(end);
}

// Puts each end at the place of its number.
fn place(mut places: Vec<Option<UnitEnd>>, mut ends: Vec<(u64, UnitEnd)>) -> Vec<Option<UnitEnd>>
    requires below { AreBelow (length places.items) ends.items }
    ensures count { length result.items ≡ length places.items }
    ensures placed { (before : List (ℕ × _)) → ArePlaced before places.items → ArePlaced (ends.items ++ before) result.items }
{
    'ends: while let Some((number, end)) = ends.pop() {
        put(&mut places[number as usize], end);
    }
    places
}

/// The places, each with the end of its number, where there is one in the shares.
pub(crate) fn place_all(
    mut places: Vec<Option<UnitEnd>>,
    mut shares: Vec<Share>,
) -> Vec<Option<UnitEnd>>
    requires none { All (λ place. place ≡ None) places.items }
    requires below { All (λ share. AreBelow (length places.items) (ends_in share)) shares.items }
    ensures count { length result.items ≡ length places.items }
    ensures placed { ArePlaced (flat_map ends_in shares.items) result.items }
{
    'shares: while let Some(share) = shares.pop() {
        places = place(places, share.into_ends());
    }
    places
}

/// The ends, where each place has one. It takes no memory.
pub(crate) fn in_order(places: Vec<Option<UnitEnd>>, mut ends: Vec<UnitEnd>) -> Items<UnitEnd>
    requires room { (ends.items ≡ []) × (vec_len places ≤ vec_capacity ends) }
    requires full { All (λ place. IsSome place) places.items }
    ensures { map Some result ≡ places.items }
{
    let mut left = places;
    left.reverse();
    'places: while let Some(place) = left.pop() {
        match place {
            Some(end) => ends.push_reserved(end),
            None => unreachable!(),
        }
    }
    Items::of_vec(ends)
}
