//! How much is left to a unit, and how large its numbers become.

ghost use Rattle.unit_steps.specs.Laws.{FoldersHaveNumbers, RankFalls, SkipsAreBehind};

/// What is left falls by the first of its numbers that does.
pub fn less_is_left()
    ensures { RankFalls }
{}

/// The place that a jump goes to stands behind its own.
pub fn a_jump_goes_forward()
    ensures { SkipsAreBehind }
{}

/// Each place in the chain of folders, and one more, is a u32.
pub fn folders_have_numbers()
    ensures { FoldersHaveNumbers }
{}
