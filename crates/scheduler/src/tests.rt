ghost use Rattle.std.specs.Prelude.{◌≡◌, [], All, IfOk, vec_len};
ghost use Rattle.scan_model.specs.Fits.{JobFits};

use crate::run_schedule;
use file_source::{MemorySource, Scripted, ScriptedOutcome, Source};
use scan_model::{
    Bytes, Command, Dialect, Items, Job, PathText, SearchList, Settings, Text, UnitEnd,
};
use shard_cache::Store;
use std::alloc::Global;
use std::test::Fail;

#[tactic(auto, unfolding(scan_model::specs::Paths::normal))]
fn path_w(alloc: Global) -> Result<PathText, Fail> {
    Ok(PathText::of_normal(Bytes::copy(alloc, b"w")?))
}

// The file is there at its first read alone.
fn source(alloc: Global) -> Result<MemorySource, Fail>
    ensures { IfOk result (λ source. source.asked.items ≡ []) }
{
    let first = ScriptedOutcome::Bytes(Bytes::copy(alloc, b"import a;")?);
    let second = ScriptedOutcome::Absent;
    let file = Scripted {
        path: path_w(alloc)?,
        outcomes: Items::of_vec(vec![in alloc; first, second]?),
    };
    let files = Items::of_vec(vec![in alloc; file]?);
    Ok(MemorySource::new(alloc, files)?)
}

fn sources(alloc: Global) -> Result<Vec<MemorySource>, Fail>
    ensures sixteen { IfOk result (λ sources. vec_len sources ≡ 16) }
    ensures fresh { IfOk result (λ sources. All (λ source. ⟦<MemorySource as Source>⟧.asked source ≡ []) sources.items) }
{
    let mut sources = Vec::new(alloc);
    'shards: while sources.len() < 16 {
        sources.push(source(alloc)?)?;
    }
    Ok(sources)
}

fn job(alloc: Global) -> Result<Job, Fail>
    ensures { IfOk result (λ job. JobFits job) }
{
    Ok(Job::Run(Command {
        directory: path_w(alloc)?,
        main: path_w(alloc)?,
        source: Text::copy(alloc, "w")?,
        output: Text::copy(alloc, "o")?,
        settings: Items::new(alloc),
        forced: Items::new(alloc),
        search: SearchList {
            quote: Items::new(alloc),
            angled: Items::new(alloc),
            system: Items::new(alloc),
            after: Items::new(alloc),
        },
        dialect: Dialect::Cxx20,
    }))
}

// Whether the one end is a record.
fn is_record(ends: &Items<UnitEnd>) -> bool {
    matches!(ends.as_slice(), [UnitEnd::Record(_)])
}

#[test]
fn a_path_with_a_row_is_not_read_again(rt: HostRuntime) -> Result<(), Fail> {
    let alloc = rt.alloc();
    let Ok(mut store) = Store::new(alloc, sources(alloc)?) else {
        return Err(Fail::from("memory"));
    };
    let jobs = Items::of_vec(vec![in alloc; job(alloc)?]?);
    let settings = Settings {
        predefines: None,
        program: Items::new(alloc),
    };
    let first = run_schedule(alloc, &jobs, &settings, 2, 1, &mut store)?;
    assert!(rt; is_record(&first));
    let again = run_schedule(alloc, &jobs, &settings, 2, 1, &mut store)?;
    assert!(rt; is_record(&again));
    assert_eq!(rt; store.paths(), 1);
    Ok(())
}
