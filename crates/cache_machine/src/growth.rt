//! What grown rows keep.

ghost use Rattle.cache_machine.specs.Laws.{AnswersStay, LooksStay, RowsOnlyGrow};

/// Whatever the workers do, in whatever order, and wherever memory is wanting, the rows' paths stay, and a row that is
/// done never changes.
pub fn rows_only_grow()
    ensures { RowsOnlyGrow }
{}

/// The k-th path that a job looks at stays the k-th as rows grow.
pub fn looked_paths_stay()
    ensures { LooksStay }
{}

/// A job's answer, once it is known, stays as rows grow.
pub fn known_answers_stay()
    ensures { AnswersStay }
{}
