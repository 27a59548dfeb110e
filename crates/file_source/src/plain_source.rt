ghost use Rattle.std.specs.Prelude.{◌≡◌, [], IfOk, OnOk};
ghost use Rattle.byte_keys.specs.Maps.{IsPut};
ghost use Rattle.file_source.specs.CameOf.{IsCaused, bytes_of, came_of_bytes, count_of, outcome_of};
ghost use Rattle.file_source.specs.Made.{came_at, came_of_text};
ghost use Rattle.file_source.specs.Texts.{AreListed, text_in};

use crate::given::Came;
use crate::{Listed, MadeFile, Source};
use scan_model::{Bytes, FILE_LIMIT, Items, NoMemory, Outcome, PathText};
use std::alloc::Global;
use std::collections::HashMap;
use std::marker::PhantomData;

/// The files that J lists, in memory; nothing of it ever fails.
///
/// What a read gives follows from J and the path alone: the first text that is listed for the path, Present or too
/// Big, and Absent for a path that isn't listed.
#[derive(Drop)]
pub struct PlainSource<J: Listed + Send + Sync> {
    texts: HashMap<Vec<u8>, Bytes>,
    asked: Vec<Bytes>,
    of: PhantomData<J>,
    ghost listed: { AreListed J.files texts.entries },
}

/// The right to read one path of a `PlainSource` once.
#[derive(Drop)]
pub struct PlainOpener<J: Listed + Send + Sync> {
    path: Bytes,
    came: Came,
    of: PhantomData<J>,
    ghost listed: { came ≡ came_at J.files path },
    ghost caused: { IsCaused came },
}

/// What one read of a `PlainSource` gave.
#[derive(Drop)]
pub struct PlainGiven<J: Listed + Send + Sync> {
    path: Bytes,
    came: Came,
    of: PhantomData<J>,
    ghost listed: { came ≡ came_at J.files path },
    ghost caused: { IsCaused came },
}

impl<J: Listed + Send + Sync> PlainSource<J> {
    /// A source of J's files. Where a path is listed twice, its first text counts.
    pub fn new(alloc: Global, files: Items<MadeFile>) -> Result<PlainSource<J>, NoMemory>
        requires { files ≡ J.files }
        ensures { IfOk result (λ s. ⟦<PlainSource<J> as Source>⟧.asked s ≡ []) }
    {
        Ok(PlainSource {
            texts: texts_of(alloc, files)?,
            asked: Vec::new(alloc),
            of: PhantomData,
        })
    }
}

// What comes of a read of this text.
fn copy_text(alloc: Global, text: &[u8]) -> Result<Came, NoMemory>
    ensures value { IfOk result (λ came. came ≡ came_of_bytes text.now) }
    ensures caused { IfOk result (λ came. IsCaused came) }
{
    if text.len() > FILE_LIMIT {
        return Ok(Came::Big(text.len()));
    }
    Ok(Came::Present(Bytes::copy(alloc, text)?))
}

// What comes of a read of this path.
fn find_text(alloc: Global, texts: &HashMap<Vec<u8>, Bytes>, path: &[u8]) -> Result<Came, NoMemory>
    ensures value { IfOk result (λ came. came ≡ came_of_text (text_in texts.now.entries path.now)) }
    ensures caused { IfOk result (λ came. IsCaused came) }
{
    match texts.get(path) {
        Some(text) => copy_text(alloc, text.as_slice()),
        None => Ok(Came::Absent),
    }
}

// The texts by their paths.
fn texts_of(alloc: Global, files: Items<MadeFile>) -> Result<HashMap<Vec<u8>, Bytes>, NoMemory>
    ensures { IfOk result (λ texts. AreListed files texts.entries) }
{
    let mut texts = HashMap::new(alloc);
    let mut left = files.into_vec();
    // From the last on: the first text of a path is put in last, in the place of the others.
    'files: while let Some(file) = left.pop() {
        put_text(alloc, &mut texts, file)?;
    }
    Ok(texts)
}

// Gives the file's path its text, in the place of an earlier one.
fn put_text(
    alloc: Global,
    texts: &mut HashMap<Vec<u8>, Bytes>,
    file: MadeFile,
) -> Result<(), NoMemory>
    ensures { OnOk result (IsPut file.path file.text texts.old.entries texts.new.entries) }
{
    let MadeFile { path, text } = file;
    let key = Vec::from_slice(alloc, path.as_slice())?;
    texts.insert(key, text)?;
    Ok(())
}

impl<J: Listed + Send + Sync> Source for PlainSource<J> {
    type Opener = PlainOpener<J>;

    type Given = PlainGiven<J>;

    ghost asked = { λ s. s.asked.items };

    ghost origin = { λ _. 0 };

    ghost opener_path = { λ o. o.path };

    ghost opener_origin = { λ _. 0 };

    ghost given_path = { λ g. g.path };

    ghost given_origin = { λ _. 0 };

    ghost given_outcome = { λ g. outcome_of (came_at J.files g.path) };

    ghost given_bytes = { λ g. bytes_of (came_at J.files g.path) };

    ghost given_faults = { λ _. 0 };

    ghost given_came = { λ g. count_of (came_at J.files g.path) };

    fn ask(&mut self, alloc: Global, path: &PathText) -> Result<PlainOpener<J>, NoMemory> {
        let came = find_text(alloc, &self.texts, path.as_slice())?;
        let name = Bytes::copy(alloc, path.as_slice())?;
        self.asked.push(Bytes::copy(alloc, path.as_slice())?)?;
        Ok(PlainOpener {
            path: name,
            came,
            of: PhantomData,
        })
    }

    fn read(_alloc: Global, opener: PlainOpener<J>) -> PlainGiven<J> {
        let PlainOpener { path, came, of } = opener;
        PlainGiven { path, came, of }
    }

    fn outcome(given: &PlainGiven<J>) -> Outcome {
        given.came.outcome()
    }

    fn bytes(given: &PlainGiven<J>) -> &[u8] {
        given.came.bytes()
    }
}
