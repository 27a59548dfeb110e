/// The text of a command, or its words, that no compiler would take.
#[derive(Clone, Copy, Debug, PartialEq, Eq)]
pub struct BadCommand;
