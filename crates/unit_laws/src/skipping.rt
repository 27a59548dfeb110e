//! What a skip tells is what going through the lines gives.

ghost use Rattle.unit_laws.specs.Skipping.{SkipTells};

/// In a group that isn't live, the lines from a conditional's line to its partner leave the same core, and the same
/// module and import lines; where a conditional inside is broken, or one is open at the file's end, the unit stops there
/// at the line that the skip tells.
pub fn skips_tell_what_lines_give<T>()
    ensures { SkipTells T }
{}
