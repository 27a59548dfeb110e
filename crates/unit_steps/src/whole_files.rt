//! What a unit says of all whole files that agree with its answers.

ghost use Rattle.unit_steps.specs.Laws.{EndIsTheirs, KthLooked, SoughtIsNeeded};

/// The path that is sought comes next in what all agreeing whole files look at, and those that lack it need it.
pub fn a_sought_path_is_needed()
    ensures { SoughtIsNeeded }
{}

/// The end is that of all agreeing whole files.
pub fn an_end_is_that_of_whole_files()
    ensures { EndIsTheirs }
{}

/// A unit with k answers waits for the path that comes as the k-th, from 0, in what any agreeing map looks at.
pub fn the_path_that_waits_is_looked_at_next()
    ensures { KthLooked }
{}
