//! The places that files have in the chain of folders.

ghost use Rattle.unit_laws.specs.Chain.{FoundPlace, NextGoesOn, PlacedAreCandidates};

/// The paths that have places are the candidates, in the same order.
pub fn placed_paths_are_the_candidates()
    ensures { PlacedAreCandidates }
{}

/// A file that is found has the place that the last candidate gives that was looked at.
pub fn a_found_file_has_its_candidates_place<T>()
    ensures { FoundPlace T }
{}

/// From the place on that a candidate gives, the same name is looked for at the candidates behind that one.
pub fn a_next_search_goes_on_behind()
    ensures { NextGoesOn }
{}
