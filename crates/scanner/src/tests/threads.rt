//! Runs on threads of their own.
ghost use Rattle.std.specs.Prelude.{◌≡◌, [], All, IfOk, vec_len};
ghost use Rattle.shard_cache.specs.StoreMap.{IsUntouched};

use super::inputs::{TWO, TWO_RULES};
use super::{COMES_LATER, Case, FAILS_FOR_TWO, MADE, USUAL, made_case, outside, script, words_of};
use crate::{Outside, scan_deps};
use file_source::{MadeFile, MemorySink, Source};
use meeting_source::{Meeting, MeetingSource};
use path_search::normal;
use scan_model::{Bytes, Items};
use shard_cache::Store;
use std::alloc::Global;
use std::process::Abort;
use std::sync::Wait;
use std::test::Fail;
use std::thread::Threads;

fn is_as_said_on_threads<Q: Threads + Wait + Sync + Abort>(
    rt: &Q,
    alloc: Global,
    words: &str,
    case: &Case,
) -> Result<(), Fail> {
    let words = words_of(alloc, words)?;
    assert!(rt; words.iter().all(|word| word.len() <= 33_554_432));
    let outside = outside(alloc, script(alloc, case.database)?, case.files)?;
    let mut out = MemorySink::new(alloc, 16_777_216, Items::new(alloc))?;
    let mut err = MemorySink::new(alloc, 16_777_216, Items::new(alloc))?;
    let ended = scan_deps(rt, alloc, &words, outside, &mut out, &mut err);
    assert_eq!(rt; err.bytes(), case.err.as_bytes());
    assert_eq!(rt; out.bytes(), case.out.as_bytes());
    assert_eq!(rt; ended.status, case.status);
    assert_eq!(rt; ended.outside.store.paths(), case.paths);
    Ok(())
}

#[test]
fn threads_print_what_one_prints(rt: HostRuntime) -> Result<(), Fail> {
    let alloc = rt.alloc();
    for case in [COMES_LATER, FAILS_FOR_TWO] {
        let words = "--compilation-database=/p/db.json -j 3";
        is_as_said_on_threads(&rt, alloc, words, &case)?;
    }
    for workers in [1u32, 2, 4, 16, 64] {
        let words = format!(in alloc;
            "--compilation-database=/p/build/compile_commands.json --predefines=/p/predef.h -j {workers}"
        )?;
        is_as_said_on_threads(&rt, alloc, words.as_str(), &USUAL)?;
    }
    Ok(())
}

#[test]
fn made_trees_on_threads(rt: HostRuntime) -> Result<(), Fail> {
    for made in MADE {
        is_as_said_on_threads(&rt, rt.alloc(), made.words, &made_case(made))?;
    }
    Ok(())
}

// ## Two reads that must run at the same time

fn made(alloc: Global, path: &str, text: &str) -> Result<MadeFile, Fail> {
    Ok(MadeFile {
        path: normal(alloc, path.as_bytes())?,
        text: Bytes::copy(alloc, text.as_bytes())?,
    })
}

// Two commands, each of which includes one header, which is empty. The second one's is of this name.
fn meeting_files(alloc: Global, second: &str) -> Result<Items<MadeFile>, Fail> {
    let (path, database) = TWO.split_once('\n').unwrap_or(("", ""));
    let include = format!(in alloc; "#include \"{second}\"\n")?;
    let header = format!(in alloc; "/p/{second}")?;
    let mut files = Vec::new(alloc);
    files.push(made(alloc, path, database)?)?;
    files.push(made(alloc, "/p/a.cpp", "#include \"a.h\"\n")?)?;
    files.push(made(alloc, "/p/b.cpp", include.as_str())?)?;
    files.push(made(alloc, "/p/a.h", "")?)?;
    files.push(made(alloc, header.as_str(), "")?)?;
    Ok(Items::of_vec(files))
}

fn meeting_source(alloc: Global, meeting: &Meeting, second: &str) -> Result<MeetingSource, Fail>
    ensures { IfOk result (λ source. ⟦<MeetingSource as Source>⟧.asked source ≡ []) }
{
    let files = meeting_files(alloc, second)?;
    Ok(MeetingSource::new(alloc, files, meeting.share()?)?)
}

fn meeting_sources(
    alloc: Global,
    meeting: &Meeting,
    second: &str,
) -> Result<Vec<MeetingSource>, Fail>
    ensures sixteen { IfOk result (λ sources. vec_len sources ≡ 16) }
    ensures fresh { IfOk result (λ sources. All (λ source. ⟦<MeetingSource as Source>⟧.asked source ≡ []) sources.items) }
{
    let mut sources = Vec::new(alloc);
    'shards: while sources.len() < 16 {
        sources.push(meeting_source(alloc, meeting, second)?)?;
    }
    Ok(sources)
}

fn meeting_outside(alloc: Global, second: &str) -> Result<Outside<MeetingSource>, Fail>
    ensures fresh_db { IfOk result (λ outside. ⟦<MeetingSource as Source>⟧.asked outside.db ≡ []) }
    ensures fresh_store { IfOk result (λ outside. IsUntouched outside.store) }
{
    let header = format!(in alloc; "/p/{second}")?;
    let first = normal(alloc, b"/p/a.h")?;
    let meeting = Meeting::new(alloc, first, normal(alloc, header.as_bytes())?, 20_000_000)?;
    let db = meeting_source(alloc, &meeting, second)?;
    match Store::new(alloc, meeting_sources(alloc, &meeting, second)?) {
        Ok(store) => Ok(Outside { db, store }),
        Err(_) => Err(Fail::from("memory")),
    }
}

// Both headers stand in one shard, and in two. A scan that reads under a lock, or on one thread, ends with ReadFault.
#[test]
fn two_reads_meet(rt: HostRuntime) -> Result<(), Fail> {
    let alloc = rt.alloc();
    for second in ["q.h", "b.h"] {
        let words = words_of(alloc, "--compilation-database=/p/db.json -j 2")?;
        assert!(rt; words.iter().all(|word| word.len() <= 33_554_432));
        let outside = meeting_outside(alloc, second)?;
        let mut out = MemorySink::new(alloc, 65_536, Items::new(alloc))?;
        let mut err = MemorySink::new(alloc, 65_536, Items::new(alloc))?;
        let ended = scan_deps(&rt, alloc, &words, outside, &mut out, &mut err);
        assert_eq!(rt; err.bytes(), b"".as_slice());
        assert_eq!(rt; out.bytes(), TWO_RULES.as_bytes());
        assert_eq!(rt; ended.status, 0);
    }
    Ok(())
}
