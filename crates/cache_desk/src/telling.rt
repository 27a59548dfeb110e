//! What a unit is told of a row.
ghost use Rattle.std.specs.Prelude.{◌≡◌, ℕ, List, false, IfOk};
ghost use Rattle.shard_cache.specs.Rows.{HasOwnLines};
ghost use Rattle.reducer.specs.Answers.{content_of};
ghost use Rattle.cache_desk.specs.Desk.{told, stood, AnswersRow};

use file_source::Source;
use reducer::Answer;
use scan_model::{NoMemory, Outcome};
use shard_cache::KeptRow;
use std::sync::Arc;

/// What a unit is told of a row. `Err` is want of memory for one more owner of its lines.
pub(crate) fn answer_of<S: Source>(row: &KeptRow<S>) -> Result<Answer, NoMemory>
    requires { HasOwnLines S.given_outcome S.given_bytes row.now }
    ensures { IfOk result (λ answer. AnswersRow S.given_outcome S.given_bytes answer row.now) }
{
    match &row.reduced {
        Some(lines) => Ok(Answer::Lines(Arc::try_clone(lines)?)),
        None => Ok(bare_answer(S::outcome(&row.given))),
    }
}

/// What a unit is told of a row without lines.
pub fn bare_answer(outcome: Outcome) -> Answer
    ensures { (bytes : List ℕ) → content_of result ≡ told (stood false outcome) bytes }
{
    match outcome {
        Outcome::Absent => Answer::Absent,
        Outcome::Failed => Answer::Failed,
        Outcome::Big => Answer::Big,
        Outcome::Present | Outcome::NoMemory => Answer::NoMemory,
    }
}
