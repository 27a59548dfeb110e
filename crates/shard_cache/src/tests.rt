ghost use Rattle.std.specs.Prelude.{◌≡◌, [], All, IfOk, vec_len};

use crate::{KeptRow, Store};
use file_source::{MemorySource, Scripted, ScriptedOutcome, Source};
use scan_model::{Bytes, Items, PathText};
use std::alloc::Global;
use std::test::Fail;

#[tactic(auto, unfolding(scan_model::specs::Paths::normal))]
fn path_w(alloc: Global) -> Result<PathText, Fail> {
    Ok(PathText::of_normal(Bytes::copy(alloc, b"w")?))
}

#[tactic(auto, unfolding(scan_model::specs::Paths::normal))]
fn path_of_the_same_shard(alloc: Global) -> Result<PathText, Fail> {
    Ok(PathText::of_normal(Bytes::copy(alloc, b"g")?))
}

fn source(alloc: Global) -> Result<MemorySource, Fail>
    ensures { IfOk result (λ source. source.asked.items ≡ []) }
{
    let text = ScriptedOutcome::Bytes(Bytes::copy(alloc, b"text")?);
    let file = Scripted {
        path: path_w(alloc)?,
        outcomes: Items::of_vec(vec![in alloc; text]?),
    };
    let files = Items::of_vec(vec![in alloc; file]?);
    Ok(MemorySource::new(alloc, files)?)
}

fn sources(alloc: Global) -> Result<Vec<MemorySource>, Fail>
    ensures sixteen { IfOk result (λ sources. vec_len sources ≡ 16) }
    ensures fresh { IfOk result (λ sources. All (λ source. ⟦<MemorySource as Source>⟧.asked source ≡ []) sources.items) }
{
    let mut sources = Vec::new(alloc);
    while sources.len() < 16 {
        sources.push(source(alloc)?)?;
    }
    Ok(sources)
}

// The path's one byte is 119, which is 7 modulo 16.
#[test]
fn keeps_what_was_asked(rt: HostRuntime) -> Result<(), Fail> {
    let alloc = rt.alloc();
    let Ok(mut store) = Store::new(alloc, sources(alloc)?) else {
        return Err(Fail::from("memory"));
    };
    let path = path_w(alloc)?;
    let opener = store.ask(alloc, &path)?;
    let given = MemorySource::read(alloc, opener);
    let row = KeptRow {
        path,
        given,
        reduced: None,
    };
    assert!(rt; store.add(row).is_ok());
    assert_eq!(rt; store.paths(), 1);
    assert!(rt; store.find(&path_w(alloc)?).is_some());
    assert!(rt; store.find(&path_of_the_same_shard(alloc)?).is_none());
    assert_eq!(rt; store.len(7), 1);
    assert_eq!(rt;
        MemorySource::bytes(&store.row(7, 0).given),
        b"text".as_slice()
    );
    Ok(())
}
