ghost use Rattle.std.specs.Prelude.{◌≡◌, [], All, IfOk, vec_len};
ghost use Rattle.shard_cache.specs.StoreMap.{IsUntouched};
ghost use Rattle.shared_cache.specs.Shared.{ArePasses};

use crate::looked::{Looked, Mark};
use crate::{Cache, Passes, read_and_reduce};
use file_source::{MemorySource, Scripted, ScriptedOutcome, Source};
use reducer::Answer;
use scan_model::{Bytes, Items, NoMemory, PathText};
use shard_cache::Store;
use std::alloc::Global;
use std::sync::Wait;
use std::test::Fail;

#[tactic(auto, unfolding(scan_model::specs::Paths::normal))]
fn path_w(alloc: Global) -> Result<PathText, Fail> {
    Ok(PathText::of_normal(Bytes::copy(alloc, b"w")?))
}

fn source(alloc: Global) -> Result<MemorySource, Fail>
    ensures { IfOk result (λ source. source.asked.items ≡ []) }
{
    let text = ScriptedOutcome::Bytes(Bytes::copy(alloc, b"text")?);
    let file = Scripted {
        path: path_w(alloc)?,
        outcomes: Items::of_vec(vec![in alloc; text]?),
    };
    let files = Items::of_vec(vec![in alloc; file]?);
    Ok(MemorySource::new(alloc, files)?)
}

fn sources(alloc: Global) -> Result<Vec<MemorySource>, Fail>
    ensures sixteen { IfOk result (λ sources. vec_len sources ≡ 16) }
    ensures fresh { IfOk result (λ sources. All (λ source. ⟦<MemorySource as Source>⟧.asked source ≡ []) sources.items) }
{
    let mut sources = Vec::new(alloc);
    while sources.len() < 16 {
        sources.push(source(alloc)?)?;
    }
    Ok(sources)
}

// One look, and what it asks for: a claim is read and published, and others' claims are waited for.
fn ask_once<S: Source, Q: Wait>(
    rt: &Q,
    alloc: Global,
    cache: &Cache<S>,
    passes: &mut Passes<S>,
    path: &PathText,
) -> Result<Option<Answer>, NoMemory>
    requires { ArePasses cache.now.locks.items passes.old.passes.items passes.old.number }
    ensures { ArePasses cache.now.locks.items passes.new.passes.items passes.old.number × (passes.new.number ≡ passes.old.number) }
{
    match cache.look(rt, alloc, passes, path)? {
        Looked::Done(answer) => Ok(Some(answer)),
        Looked::Mine(claim) => {
            let _opener = claim.opener();
            let ready = read_and_reduce(alloc, claim);
            Ok(Some(cache.publish(rt, passes, ready)))
        }
        Looked::Busy(mark) => {
            cache.rest(rt, mark);
            Ok(None)
        }
    }
}

fn has_lines(asked: Result<Option<Answer>, NoMemory>) -> bool {
    match asked {
        Ok(Some(Answer::Lines(_))) => true,
        Ok(_) | Err(_) => false,
    }
}

// One worker of two asks for a path twice, and then the cache is closed. It tells whether it had lines both times.
fn asked_twice<S: Source, Q: Wait>(
    rt: &Q,
    alloc: Global,
    store: Store<S>,
    path: &PathText,
) -> Result<(bool, Store<S>), Store<S>>
    requires { IsUntouched store }
{
    let (cache, hands) = Cache::new(alloc, store, 2)?;
    let mut hands = hands.into_vec();
    let first = ask_once(rt, alloc, &cache, &mut hands[0], path);
    let again = ask_once(rt, alloc, &cache, &mut hands[0], path);
    let store = cache.close(Items::of_vec(hands));
    Ok((has_lines(first) & has_lines(again), store))
}

#[test]
fn a_path_is_read_once(rt: HostRuntime) -> Result<(), Fail> {
    let alloc = rt.alloc();
    let path = path_w(alloc)?;
    let Ok(store) = Store::new(alloc, sources(alloc)?) else {
        return Err(Fail::from("memory"));
    };
    let Ok((lines, store)) = asked_twice(&rt, alloc, store, &path) else {
        return Err(Fail::from("memory"));
    };
    assert!(rt; lines);
    assert_eq!(rt; store.paths(), 1);
    Ok(())
}
