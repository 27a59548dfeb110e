ghost use Rattle.std.specs.Prelude.{◌≡◌, [], All, IfOk, vec_len};
ghost use Rattle.scan_model.specs.Fits.{JobFits};

use crate::{Scanned, scan_all};
use file_source::{MemorySource, Scripted, ScriptedOutcome, Source};
use scan_model::{
    Bytes, Command, CommandFault, Dialect, Items, Job, PathText, SearchList, Settings, Text,
    UnitEnd,
};
use shard_cache::Store;
use std::alloc::Global;
use std::test::Fail;

#[tactic(auto, unfolding(scan_model::specs::Paths::normal))]
fn path_w(alloc: Global) -> Result<PathText, Fail> {
    Ok(PathText::of_normal(Bytes::copy(alloc, b"w")?))
}

fn source(alloc: Global) -> Result<MemorySource, Fail>
    ensures { IfOk result (λ source. source.asked.items ≡ []) }
{
    let text = ScriptedOutcome::Bytes(Bytes::copy(alloc, b"import a;")?);
    let file = Scripted {
        path: path_w(alloc)?,
        outcomes: Items::of_vec(vec![in alloc; text]?),
    };
    let files = Items::of_vec(vec![in alloc; file]?);
    Ok(MemorySource::new(alloc, files)?)
}

fn sources(alloc: Global) -> Result<Vec<MemorySource>, Fail>
    ensures sixteen { IfOk result (λ sources. vec_len sources ≡ 16) }
    ensures fresh { IfOk result (λ sources. All (λ source. ⟦<MemorySource as Source>⟧.asked source ≡ []) sources.items) }
{
    let mut sources = Vec::new(alloc);
    'shards: while sources.len() < 16 {
        sources.push(source(alloc)?)?;
    }
    Ok(sources)
}

fn job(alloc: Global) -> Result<Job, Fail>
    ensures { IfOk result (λ job. JobFits job) }
{
    Ok(Job::Run(Command {
        directory: path_w(alloc)?,
        main: path_w(alloc)?,
        source: Text::copy(alloc, "w")?,
        output: Text::copy(alloc, "o")?,
        settings: Items::new(alloc),
        forced: Items::new(alloc),
        search: SearchList {
            quote: Items::new(alloc),
            angled: Items::new(alloc),
            system: Items::new(alloc),
            after: Items::new(alloc),
        },
        dialect: Dialect::Cxx20,
    }))
}

#[test]
fn two_workers_scan_two_jobs(rt: HostRuntime) -> Result<(), Fail> {
    let alloc = rt.alloc();
    let Ok(store) = Store::new(alloc, sources(alloc)?) else {
        return Err(Fail::from("memory"));
    };
    let refused = Job::Refused(CommandFault::BadCommand);
    let jobs = Items::of_vec(vec![in alloc; refused, job(alloc)?]?);
    let settings = Settings {
        predefines: None,
        program: Items::new(alloc),
    };
    let Scanned { ends, store } = scan_all(&rt, alloc, &jobs, &settings, 2, store);
    let ends = ends?;
    assert!(rt;
        matches!(
            ends.as_slice(),
            [
                UnitEnd::Refused(CommandFault::BadCommand),
                UnitEnd::Record(_)
            ]
        )
    );
    assert_eq!(rt; store.paths(), 1);
    Ok(())
}
