//! What a worker answers when a unit asks for a path.
ghost use Rattle.std.specs.Prelude.{◌≡◌, ℕ, List, IfOk, IfSome};
ghost use Rattle.reducer.specs.Answers.{content_of};
ghost use Rattle.cache_desk.specs.Log.{standing, Claimed};
ghost use Rattle.shared_cache.specs.Shared.{seen_of};
ghost use Rattle.shared_cache.specs.Callers.{number_of, seen_by, IsHandOf, origin_at, claimed_path, opener_of};
ghost use Rattle.worker.specs.Seen.{IsSeen, IsMemoOf, SeesFurther};
ghost use Rattle.worker.specs.Claims.{HasClaimed, GoesOn};

use answer_memo::Memo;
use file_source::Source;
use reducer::Answer;
use scan_model::{NoMemory, PathText};
use shared_cache::{Cache, Claim, Looked, Passes, read_and_reduce};
use std::alloc::Global;
use std::sync::Wait;

/// The answer for the path: from the memo, or else from the cache, once its row is done there. `Err` is want of memory
/// for a look.
pub(crate) fn ask<Q: Wait, S: Source>(
    rt: &Q,
    alloc: Global,
    cache: &Cache<S>,
    passes: &mut Passes<S>,
    memo: &mut Memo,
    path: &PathText,
) -> Result<Answer, NoMemory>
    requires own { IsHandOf cache.now passes.old }
    requires memo { IsMemoOf (seen_by passes.old) memo.old }
    ensures own { IsHandOf cache.now passes.new × (number_of passes.new ≡ number_of passes.old) }
    ensures memo { IsMemoOf (seen_by passes.new) memo.new }
    ensures seen { IfOk result (λ answer. IsSeen (seen_by passes.new) path.now (content_of answer)) }
    ensures goes { GoesOn (number_of passes.old) (λ other. other ≡ path.now) (seen_by passes.old) (seen_by passes.new) }
{
    if let Some(answer) = memo.get(path) {
        return Ok(answer);
    }
    let answer = look_until_done(rt, alloc, cache, passes, path)?;
    memo.add(path, &answer);
    Ok(answer)
}

// Looks at the path until its row is done. `Err` is want of memory.
fn look_until_done<Q: Wait, S: Source>(
    rt: &Q,
    alloc: Global,
    cache: &Cache<S>,
    passes: &mut Passes<S>,
    path: &PathText,
) -> Result<Answer, NoMemory>
    requires { IsHandOf cache.now passes.old }
    ensures own { IsHandOf cache.now passes.new × (number_of passes.new ≡ number_of passes.old) }
    ensures seen { IfOk result (λ answer. IsSeen (seen_by passes.new) path.now (content_of answer)) }
    ensures goes { GoesOn (number_of passes.old) (λ other. other ≡ path.now) (seen_by passes.old) (seen_by passes.new) }
{
    for _ in rt.forever() {
        if let Some(answer) = look(rt, alloc, cache, passes, path)? {
            return Ok(answer);
        }
    }
    unreachable!()
}

// One look at the path, which is read and published where nobody had it. None where others have claimed it, after a rest.
// `Err` is want of memory.
fn look<Q: Wait, S: Source>(
    rt: &Q,
    alloc: Global,
    cache: &Cache<S>,
    passes: &mut Passes<S>,
    path: &PathText,
) -> Result<Option<Answer>, NoMemory>
    requires { IsHandOf cache.now passes.old }
    ensures own { IsHandOf cache.now passes.new × (number_of passes.new ≡ number_of passes.old) }
    ensures seen { IfOk result (λ told. IfSome told (λ answer. IsSeen (seen_by passes.new) path.now (content_of answer))) }
    ensures goes { GoesOn (number_of passes.old) (λ other. other ≡ path.now) (seen_by passes.old) (seen_by passes.new) }
{
    match cache.look(rt, alloc, passes, path) {
        Ok(Looked::Done(answer)) => Ok(Some(answer)),
        Ok(Looked::Mine(claim)) => Ok(Some(read(rt, alloc, cache, passes, claim))),
        Ok(Looked::Busy(mark)) => {
            cache.rest(rt, mark);
            Ok(None)
        }
        Err(NoMemory) => Err(NoMemory),
    }
}

// Reads a path that is claimed for these passes, and publishes what that gave, which is the answer.
fn read<Q: Wait, S: Source>(
    rt: &Q,
    alloc: Global,
    cache: &Cache<S>,
    passes: &mut Passes<S>,
    claim: Claim<S>,
) -> Answer
    requires own { IsHandOf cache.now passes.old }
    requires claimed { standing (seen_of (seen_by passes.old) (claimed_path claim)) (claimed_path claim) ≡ Claimed (number_of passes.old) }
    requires here { origin_at cache.now (claimed_path claim) ≡ S.opener_origin (opener_of claim) }
    ensures own { IsHandOf cache.now passes.new × (number_of passes.new ≡ number_of passes.old) }
    ensures seen { IsSeen (seen_by passes.new) (claimed_path claim) (content_of result) }
    ensures further { SeesFurther (seen_by passes.old) (seen_by passes.new) }
    ensures claims { (path : List ℕ) → HasClaimed (seen_by passes.new) (number_of passes.old) path → HasClaimed (seen_by passes.old) (number_of passes.old) path }
{
    let ready = read_and_reduce(alloc, claim);
    cache.publish(rt, passes, ready)
}
