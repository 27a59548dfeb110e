//! What the store tells of a path that it has a row of.

ghost use Rattle.std.specs.Prelude.{◌≡◌, ℕ, List, IfOk, MatchOption, false};
ghost use Rattle.shard_cache.specs.Rows.{row_content, stands_for, HasOwnLines, IsRow, IsStore, LacksPath};
ghost use Rattle.scheduler.specs.Reading.{told_content, HasKept};
ghost use Rattle.scheduler.specs.Moving.{IsKnown};

use crate::told::Told;
use file_source::Source;
use reducer::Answer;
use scan_model::{NoMemory, Outcome, PathText};
use shard_cache::{KeptRow, Store};
use std::sync::Arc;

/// What units are told of the path where the store has its row; None where it has none. `Err` is want of memory for one
/// more owner of the row's lines.
pub(crate) fn known<S: Source>(path: &PathText, store: &Store<S>) -> Result<Option<Told>, NoMemory>
    ensures known { IfOk result (λ known. MatchOption known (LacksPath store.now path.now)
        (λ told. IsKnown S.given_outcome S.given_bytes store.now path.now told)) }
    ensures valid { IsStore (λ row. IsRow S.given_path S.given_outcome S.given_bytes row) store.now }
{
    let Some(row) = store.find(path) else {
        return Ok(None);
    };
    let told = told_of(row)?;
    Ok(Some(told))
}

fn told_of<S: Source>(row: &KeptRow<S>) -> Result<Told, NoMemory>
    requires { HasOwnLines S.given_outcome S.given_bytes row.now }
    ensures { IfOk result (λ told. told ≡ row_content S.given_outcome S.given_bytes row.now) }
{
    let bytes = S::bytes(&row.given);
    match &row.reduced {
        Some(lines) => Ok(Told::of(Answer::Lines(Arc::try_clone(lines)?), bytes)),
        None => Ok(Told::of(without_lines(S::outcome(&row.given)), bytes)),
    }
}

// What a read with this outcome tells, without lines.
fn without_lines(outcome: Outcome) -> Answer
    ensures told { (bytes : List ℕ) → told_content result bytes ≡ stands_for false outcome bytes }
    ensures kept { (bytes : List ℕ) → HasKept result bytes }
{
    match outcome {
        Outcome::Absent => Answer::Absent,
        Outcome::Failed => Answer::Failed,
        Outcome::Big => Answer::Big,
        Outcome::Present | Outcome::NoMemory => Answer::NoMemory,
    }
}
