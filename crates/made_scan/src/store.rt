ghost use Rattle.std.specs.Prelude.{◌≡◌, ◌≤◌, [], All, IfOk, vec_len};
ghost use Rattle.shard_cache.specs.StoreMap.{IsUntouched};
ghost use Rattle.big_gen.specs.MadeTexts.{made_files};

use big_gen::made_files;
use file_source::{Listed, MadeFile, PlainSource, Source};
use scan_model::{Bytes, Items, NoMemory};
use shard_cache::Store;
use std::alloc::Global;

/// A store over sources of the made tree of `n` units.
pub(crate) fn made_store<J: Listed + Send + Sync>(
    alloc: Global,
    n: u32,
) -> Result<Store<PlainSource<J>>, NoMemory>
    requires files { J.files ≡ made_files n }
    requires units { n ≤ 4096 }
    ensures { IfOk result (λ store. IsUntouched store) }
{
    match Store::new(alloc, made_sources::<J>(alloc, n)?) {
        Ok(store) => Ok(store),
        Err(_) => Err(NoMemory),
    }
}

// One for each shard.
fn made_sources<J: Listed + Send + Sync>(
    alloc: Global,
    n: u32,
) -> Result<Vec<PlainSource<J>>, NoMemory>
    requires files { J.files ≡ made_files n }
    requires units { n ≤ 4096 }
    ensures sixteen { IfOk result (λ sources. vec_len sources ≡ 16) }
    ensures fresh { IfOk result (λ sources. All (λ source. ⟦<PlainSource<J> as Source>⟧.asked source ≡ []) sources.items) }
{
    let files = made_files(alloc, n)?;
    let mut sources = Vec::new(alloc);
    'sources: while sources.len() < 16 {
        let copies = copies_of(alloc, files.as_slice())?;
        sources.push(PlainSource::<J>::new(alloc, copies)?)?;
    }
    Ok(sources)
}

fn copies_of(alloc: Global, files: &[MadeFile]) -> Result<Items<MadeFile>, NoMemory>
    ensures { IfOk result (λ copies. copies ≡ files.now) }
{
    let mut copies = Vec::with_capacity(alloc, files.len())?;
    'copying: for file in files {
        copies.push(copy_of(alloc, file)?)?;
    }
    Ok(Items::of_vec(copies))
}

fn copy_of(alloc: Global, file: &MadeFile) -> Result<MadeFile, NoMemory>
    ensures { IfOk result (λ copy. copy ≡ file.now) }
{
    Ok(MadeFile {
        path: file.path.copy(alloc)?,
        text: Bytes::copy(alloc, file.text.as_slice())?,
    })
}
