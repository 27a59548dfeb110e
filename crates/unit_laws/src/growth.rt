//! A larger file map gives what a smaller one gave.

ghost use Rattle.scan_model.specs.WholeFile.{View};
ghost use Rattle.unit_laws.specs.Growth.{AnswerStays, LookedGrows, NeedsLast};

/// Where a file map gives an end, each larger one gives the same end, and looks at the same paths.
pub fn an_end_stays<T>()
    ensures { (view : View T) → AnswerStays T view }
{}

/// The paths that a file map looks at begin those that each larger one looks at.
pub fn looked_paths_grow<T>()
    ensures { (view : View T) → LookedGrows T view }
{}

/// A path that a file map would have to have is one that it lacks, and the last that was looked at.
pub fn a_needed_path_was_looked_at_last<T>()
    ensures { (view : View T) → NeedsLast T view }
{}
