//! What a unit may say of all whole files, by the answers that it was given.

ghost use Rattle.unit_laws.specs.KnownAnswers.{AsksAsKnown, AsksFurther, AsksNext, EndsAsKnown, EndsForAll, LookedStays};

/// Where what is known of the files needs a path, that path comes next in what all agreeing whole files look at.
pub fn a_needed_path_comes_next()
    ensures { AsksNext }
{}

/// Where what is known of the files gives an end, it is that of all agreeing whole files.
pub fn a_known_end_is_the_answer()
    ensures { EndsForAll }
{}

/// Where the answers that a unit was given have it look at the paths that it asked, and at one more, so do all whole
/// files that agree with these answers.
pub fn asked_paths_are_looked_at()
    ensures { AsksAsKnown }
{}

/// While the answers leave a path needed, there is one more to ask.
pub fn a_needed_path_leaves_one_to_ask()
    ensures { AsksFurther }
{}

/// Where these answers give an end, and the paths that were asked are all that is looked at, so it is for all whole
/// files that agree.
pub fn a_unit_ends_as_whole_files_do()
    ensures { EndsAsKnown }
{}

/// Further answers keep the paths that were looked at.
pub fn further_answers_keep_the_looked_paths()
    ensures { LookedStays }
{}
