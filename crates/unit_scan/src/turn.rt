/// What a unit's next step is.
#[derive(Clone, Copy, Debug, PartialEq, Eq)]
pub enum Turn {
    /// A path is waiting for its answer.
    Ask,
    /// The unit has its end.
    Done,
}
