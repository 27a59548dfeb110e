//! The steps of a unit over kept lines.

ghost use Rattle.unit_steps.specs.Laws.{AnswersGoOn, BeginsStanding, EndsFile, EntersFile, FoundHasPlace, JumpsStand, LinesGoOn, SettingsAreDirectives, StopsAreEnds, UnitEnds};

/// Before any answer the first moment stands for the whole unit.
pub fn a_unit_begins_with_no_answer()
    ensures { BeginsStanding }
{}

/// A line that changes what directives see leaves what it made of that, and the lines that follow.
pub fn a_line_leaves_what_follows()
    ensures { LinesGoOn }
{}

/// The text of a `-D` or `-U` has a line, and the first one is a `#define` or `#undef`.
pub fn a_setting_is_a_directive()
    ensures { SettingsAreDirectives }
{}

/// An effect that stops the unit is its end.
pub fn a_stop_is_the_end()
    ensures { StopsAreEnds }
{}

/// An answer for the path that is sought leaves what it makes of the search.
pub fn an_answer_goes_on()
    ensures { AnswersGoOn }
{}

/// A file that is found has the place in the chain of folders that the candidate of its number gives.
pub fn a_found_file_has_the_place_of_its_candidate()
    ensures { FoundHasPlace }
{}

/// A file is entered where it is neither too deep nor one too many.
pub fn a_file_is_entered()
    ensures { EntersFile }
{}

/// A file that ends leaves the one below, or, with an open conditional, ends the unit.
pub fn a_file_ends()
    ensures { EndsFile }
{}

/// In a group that isn't live, a jump to the partner that the skip of its line tells leaves what going through the lines
/// leaves, and where a skip tells a broken or an open conditional, the unit ends there.
pub fn a_jump_keeps_what_is_left()
    ensures { JumpsStand }
{}

/// Where nothing is left, the record is the end.
pub fn the_record_is_the_end()
    ensures { UnitEnds }
{}
