use crate::Marked;

/// What stands in a list until each `##` is done ([cpp.concat]).
#[derive(Drop)]
pub(crate) enum Item {
    Placemarker,
    Operand(Marked),
    /// A `##` of the replacement list itself.
    Paste(Marked),
}
