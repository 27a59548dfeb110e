ghost use Rattle.std.specs.Prelude.{◌≡◌, ◌≤◌, length, is_some, IfOk};
ghost use Rattle.std.specs.Option.{ForSome};
ghost use Rattle.std.specs.Arc.{arc_value};
ghost use Rattle.scan_model.specs.Lines.{kept};
ghost use Rattle.scan_model.specs.Limits.{file_limit};
ghost use Rattle.shard_cache.specs.Rows.{stands_for};
ghost use Rattle.scheduler.specs.Reading.{TellsOf, lines_of};

use crate::told::Told;
use reducer::{Answer, Reduced, reduce};
use scan_model::{NoMemory, Outcome};
use std::alloc::Global;
use std::sync::Arc;

/// The kept lines of what a read gave with this outcome and these bytes: what units are told of the file, and an owner of
/// the lines for its row, where there are lines.
pub(crate) fn reading(
    alloc: Global,
    outcome: Outcome,
    bytes: &[u8],
) -> (Told, Option<Arc<Reduced, Global>>)
    requires { length bytes.now ≤ file_limit }
    ensures told { result.0 ≡ stands_for (is_some result.1) outcome bytes.now }
    ensures own { ForSome result.1 (λ lines. (outcome ≡ Outcome.Present) × (arc_value lines ≡ kept bytes.now)) }
{
    let answer = answer_to(alloc, outcome, bytes);
    match answer.share() {
        Ok(shared) => (Told::of(answer, bytes), lines_of(shared)),
        Err(NoMemory) => (Told::of(Answer::NoMemory, bytes), None),
    }
}

fn answer_to(alloc: Global, outcome: Outcome, bytes: &[u8]) -> Answer
    requires { length bytes.now ≤ file_limit }
    ensures { TellsOf outcome bytes.now result }
{
    match outcome {
        Outcome::Present => match kept_lines(alloc, bytes) {
            Ok(lines) => Answer::Lines(lines),
            Err(NoMemory) => Answer::NoMemory,
        },
        Outcome::Absent => Answer::Absent,
        Outcome::Failed => Answer::Failed,
        Outcome::Big => Answer::Big,
        Outcome::NoMemory => Answer::NoMemory,
    }
}

fn kept_lines(alloc: Global, bytes: &[u8]) -> Result<Arc<Reduced, Global>, NoMemory>
    requires { length bytes.now ≤ file_limit }
    ensures { IfOk result (λ lines. arc_value lines ≡ kept bytes.now) }
{
    let lines = reduce(alloc, bytes)?;
    match Arc::new(alloc, lines) {
        Ok(lines) => Ok(lines),
        Err(_) => Err(NoMemory),
    }
}

fn lines_of(answer: Answer) -> Option<Arc<Reduced, Global>>
    ensures { result ≡ lines_of answer }
{
    match answer {
        Answer::Lines(lines) => Some(lines),
        Answer::Absent | Answer::Failed | Answer::Big | Answer::NoMemory => None,
    }
}
