//! Where the bytes that show after phases 1 and 2 of translation stand in the text.

ghost use Rattle.unit_laws.specs.Splicing.{OthersShow, ShownStands, SplicedStands};

/// What shows of a text from any place on are its bytes in order, each on the line that its place has.
pub fn shown_bytes_stand_in_the_text()
    ensures { ShownStands }
{}

/// What shows of a whole text are its bytes behind the byte order mark, in order, each on the line that its place
/// has: one more than the newlines before it.
pub fn a_text_shows_its_bytes_in_order()
    ensures { SplicedStands }
{}

/// Behind the byte order mark exactly those bytes show that are in no splice and aren't the LF of a CR LF.
pub fn all_but_the_hidden_bytes_show()
    ensures { OthersShow }
{}
