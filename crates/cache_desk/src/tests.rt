ghost use Rattle.std.specs.Prelude.{◌≡◌, IfOk, [], ◌∷◌};
ghost use Rattle.shard_cache.specs.Rows.{shard_number};

use crate::{Desk, Found};
use file_source::{MemorySource, Scripted, ScriptedOutcome, Source};
use scan_model::{Bytes, Items, NoMemory, PathText};
use shard_cache::KeptRow;
use std::alloc::Global;
use std::test::Fail;

#[tactic(auto, unfolding(scan_model::specs::Paths::normal))]
fn path_w(alloc: Global) -> Result<PathText, Fail>
    ensures { IfOk result (λ path. path ≡ 119 ∷ []) }
{
    Ok(PathText::of_normal(Bytes::copy(alloc, b"w")?))
}

fn source(alloc: Global) -> Result<MemorySource, Fail>
    ensures { IfOk result (λ source. source.asked.items ≡ []) }
{
    let text = ScriptedOutcome::Bytes(Bytes::copy(alloc, b"text")?);
    let file = Scripted {
        path: path_w(alloc)?,
        outcomes: Items::of_vec(vec![in alloc; text]?),
    };
    let files = Items::of_vec(vec![in alloc; file]?);
    Ok(MemorySource::new(alloc, files)?)
}

fn look_at<S: Source>(
    desk: &mut Desk<S>,
    alloc: Global,
    path: &PathText,
    by: u32,
) -> Result<Found<S>, NoMemory>
    requires { shard_number path.now ≡ desk.old.number }
    ensures { desk.new.number ≡ desk.old.number }
{
    desk.look(alloc, path, by)
}

// One look, and the publication of what it claimed.
fn look_and_publish<S: Source>(
    desk: &mut Desk<S>,
    alloc: Global,
    path: &PathText,
    by: u32,
) -> Result<bool, NoMemory>
    requires { shard_number path.now ≡ desk.old.number }
{
    match desk.look(alloc, path, by)? {
        Found::Mine(path, opener) => {
            let given = S::read(alloc, opener);
            let reduced = None;
            desk.publish(
                KeptRow {
                    path,
                    given,
                    reduced,
                },
                by,
            );
            Ok(true)
        }
        Found::Done(_) | Found::Busy => Ok(false),
    }
}

// The path's one byte is 119, which is 7 modulo 16.
#[test]
fn only_one_claims(rt: HostRuntime) -> Result<(), Fail> {
    let alloc = rt.alloc();
    let mut desk = Desk::new(alloc, 7, source(alloc)?);
    let path = path_w(alloc)?;
    let first = match look_at(&mut desk, alloc, &path, 3)? {
        Found::Mine(_, _) => true,
        Found::Done(_) | Found::Busy => false,
    };
    assert!(rt; first);
    let second = match look_at(&mut desk, alloc, &path, 4)? {
        Found::Busy => true,
        Found::Done(_) | Found::Mine(_, _) => false,
    };
    assert!(rt; second);
    let _source = desk.into_shard().into_source();
    Ok(())
}

#[test]
fn a_claim_is_published(rt: HostRuntime) -> Result<(), Fail> {
    let alloc = rt.alloc();
    let mut desk = Desk::new(alloc, 7, source(alloc)?);
    let path = path_w(alloc)?;
    assert!(rt; look_and_publish(&mut desk, alloc, &path, 3)?);
    let _source = desk.into_shard().into_source();
    Ok(())
}
