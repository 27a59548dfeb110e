//! The program: the scanner over the system's files and streams.
//!
//! All that it does beside the scanner's two calls is to choose one of them by the words, to make the real sources and
//! sinks and to end with the status.
#![tactic(auto)]

ghost use Rattle.std.specs.Prelude.{◌≡◌, ◌≤◌, ◌↔◌, [], All, IfOk, IsTrue, string_len, vec_len};
ghost use Rattle.scan_model.specs.Limits.{file_limit};
ghost use Rattle.shard_cache.specs.StoreMap.{IsUntouched};

use file_source::{DiskSource, OutSink, Source};
use program_words::is_alone;
use scan_model::{FILE_LIMIT, NoMemory};
use scanner::{Outside, scan_alone, scan_deps};
use shard_cache::Store;
use std::process::ExitCode;
use std::{env, io};

// The status for words that can't be read.
const USAGE: u8 = 2;

const NO_MEMORY: u8 = 7;

// The words of the command line, or the status that says why there are none.
fn read_words(rt: &HostRuntime) -> Result<Vec<String>, u8> {
    let args = match env::args(rt) {
        Ok(args) => args,
        Err(error) => return Err(status_of(error.kind())),
    };
    let mut words = Vec::new(rt.alloc());
    for word in args {
        if words.push(word).is_err() {
            return Err(NO_MEMORY);
        }
    }
    Ok(words)
}

fn status_of(kind: io::ErrorKind) -> u8 {
    match kind {
        io::ErrorKind::OutOfMemory => NO_MEMORY,
        _ => USAGE,
    }
}

fn are_short(words: &[String]) -> bool
    ensures { IsTrue result ↔ All (λ word. string_len word ≤ file_limit) words.now }
{
    words.iter().all(|word| word.len() <= FILE_LIMIT)
}

// A source for each shard of the store.
fn sources(rt: &HostRuntime) -> Result<Vec<DiskSource<HostRuntime>>, NoMemory>
    ensures sixteen { IfOk result (λ sources. vec_len sources ≡ 16) }
    ensures fresh { IfOk result (λ sources. All (λ source. ⟦<DiskSource<HostRuntime> as Source>⟧.asked source ≡ []) sources.items) }
{
    let mut sources = Vec::new(rt.alloc());
    'shards: while sources.len() < 16 {
        sources.push(DiskSource::new(rt.clone()?, rt.alloc()))?;
    }
    Ok(sources)
}

fn outside(rt: &HostRuntime) -> Result<Outside<DiskSource<HostRuntime>>, NoMemory>
    ensures fresh_db { IfOk result (λ outside. ⟦<DiskSource<HostRuntime> as Source>⟧.asked outside.db ≡ []) }
    ensures fresh_store { IfOk result (λ outside. IsUntouched outside.store) }
{
    let db = DiskSource::new(rt.clone()?, rt.alloc());
    match Store::new(rt.alloc(), sources(rt)?) {
        Ok(store) => Ok(Outside { db, store }),
        Err(_) => Err(NoMemory),
    }
}

fn main(rt: HostRuntime) -> ExitCode {
    let words = match read_words(&rt) {
        Ok(words) => words,
        Err(status) => return ExitCode::from(status),
    };
    if !are_short(&words) {
        return ExitCode::from(USAGE);
    }
    let Ok(outside) = outside(&rt) else {
        return ExitCode::from(NO_MEMORY);
    };
    let mut out = OutSink::new(rt.stdout());
    let mut err = OutSink::new(rt.stderr());
    let ended = if is_alone(&words) {
        scan_alone(rt.alloc(), &words, outside, &mut out, &mut err)
    } else {
        scan_deps(&rt, rt.alloc(), &words, outside, &mut out, &mut err)
    };
    ExitCode::from(ended.status)
}
