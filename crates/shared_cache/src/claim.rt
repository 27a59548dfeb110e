//! A path that was claimed, and what its read gave.
ghost use Rattle.std.specs.Prelude.{◌≡◌, ◌≤◌, length, IfSome};
ghost use Rattle.std.specs.Arc.{arc_value};
ghost use Rattle.scan_model.specs.declared.Outcome.TheVariants as OutcomeIs;
ghost use Rattle.scan_model.specs.Lines.{kept};
ghost use Rattle.scan_model.specs.Limits.{file_limit};
ghost use Rattle.shard_cache.specs.Rows.{IsRow};
ghost use Rattle.cache_desk.specs.Desk.{AnswersRow};

use cache_desk::bare_answer;
use file_source::Source;
use reducer::{Answer, Reduced, reduce};
use scan_model::{Outcome, PathText};
use shard_cache::KeptRow;
use std::alloc::Global;
use std::sync::Arc;

/// A path that was claimed, and the right to read it. It must be spent.
pub struct Claim<S: Source> {
    pub(crate) path: PathText,
    pub(crate) opener: S::Opener,
    ghost own: { S.opener_path opener ≡ path },
}

/// What the read of a claim gave, with the answer that its publication gives. It must be spent.
pub struct Ready<S: Source> {
    pub(crate) row: KeptRow<S>,
    pub(crate) answer: Answer,
    ghost fits: { IsRow S.given_path S.given_outcome S.given_bytes row },
    ghost answers: { AnswersRow S.given_outcome S.given_bytes answer row },
}

impl<S: Source> Claim<S> {
    pub(crate) fn new(path: PathText, opener: S::Opener) -> Claim<S>
        requires { S.opener_path opener ≡ path }
        ensures { (result.path ≡ path) × (result.opener ≡ opener) }
    {
        Claim { path, opener }
    }

    /// The right to read, which is not yet used. It takes no memory.
    pub fn opener(&self) -> &S::Opener
        ensures is { result.now ≡ self.now.opener }
        ensures path { S.opener_path result.now ≡ self.now.path }
    {
        &self.opener
    }
}

// The lines of a text for two owners, where there is memory.
fn lines_for_two(alloc: Global, text: &[u8]) -> Option<(Arc<Reduced, Global>, Arc<Reduced, Global>)>
    requires { length text.now ≤ file_limit }
    ensures { IfSome result (λ both. (arc_value both.0 ≡ kept text.now) × (arc_value both.1 ≡ kept text.now)) }
{
    let Ok(reduced) = reduce(alloc, text) else {
        return None;
    };
    let Ok(first) = Arc::new(alloc, reduced) else {
        return None;
    };
    let Ok(second) = Arc::try_clone(&first) else {
        return None;
    };
    Some((first, second))
}

fn ready_of<S: Source>(
    path: PathText,
    given: S::Given,
    lines: Option<(Arc<Reduced, Global>, Arc<Reduced, Global>)>,
    outcome: Outcome,
) -> Ready<S>
    requires path { S.given_path given ≡ path }
    requires outcome { S.given_outcome given ≡ outcome }
    requires lines { IfSome lines (λ both. (outcome ≡ OutcomeIs.Present) × (arc_value both.0 ≡ kept (S.given_bytes given)) × (arc_value both.1 ≡ kept (S.given_bytes given))) }
    ensures path { result.row.path ≡ path }
    ensures given { result.row.given ≡ given }
{
    match lines {
        Some((first, second)) => Ready {
            row: KeptRow {
                path,
                given,
                reduced: Some(first),
            },
            answer: Answer::Lines(second),
        },
        None => Ready {
            row: KeptRow {
                path,
                given,
                reduced: None,
            },
            answer: bare_answer(outcome),
        },
    }
}

/// Reads the claim's path and reduces what is Present. It holds no lock.
pub fn read_and_reduce<S: Source>(alloc: Global, claim: Claim<S>) -> Ready<S>
    ensures path { result.row.path ≡ claim.path }
    ensures origin { S.given_origin result.row.given ≡ S.opener_origin claim.opener }
{
    let Claim { path, opener } = claim;
    let given = S::read(alloc, opener);
    let outcome = S::outcome(&given);
    let lines = match outcome {
        Outcome::Present => lines_for_two(alloc, S::bytes(&given)),
        _ => None,
    };
    ready_of(path, given, lines, outcome)
}
