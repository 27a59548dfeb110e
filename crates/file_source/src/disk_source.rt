ghost use Rattle.std.specs.Prelude.{◌≡◌, ◌⊎◌, [], Some, IfSome, IfOk, IfErr, MatchOption, Contains, IsUtf8};
ghost use Rattle.std.specs.Fs.{file_type, IsDir};
ghost use Rattle.std.specs.IoError.{error_kind};
ghost use Rattle.file_source.specs.CameOf.{IsCaused, unopened_as, outcome_of, bytes_of, faults_of, count_of};

use crate::counted_reader::CountedReader;
use crate::given::Came;
use crate::reading::read_all;
use crate::{Given, Source};
use scan_model::{Bytes, NoMemory, Outcome, PathText};
use std::alloc::Global;
use std::fs::Metadata;
use std::io::ErrorKind;
use std::rt::Files;
use std::{fs, io};

/// The system's files: the trusted edge of the scanner's reads.
#[derive(Drop)]
pub struct DiskSource<H: Files + Clone + Drop + Send> {
    rt: H,
    asked: Vec<Bytes>,
}

/// The right to read one path of a `DiskSource` once.
#[derive(Drop)]
pub struct DiskOpener<H: Files + Clone + Drop + Send> {
    rt: H,
    path: Bytes,
}

impl<H: Files + Clone + Drop + Send> DiskSource<H> {
    pub fn new(rt: H, alloc: Global) -> DiskSource<H>
        ensures { ⟦<DiskSource<H> as Source>⟧.asked result ≡ [] }
    {
        DiskSource {
            rt,
            asked: Vec::new(alloc),
        }
    }
}

// What an error at opening stands for.
fn unopened(kind: ErrorKind) -> Came
    ensures value { result ≡ unopened_as kind }
    ensures caused { IsCaused result }
{
    match kind {
        ErrorKind::NotFound | ErrorKind::NotADirectory | ErrorKind::IsADirectory => Came::Absent,
        ErrorKind::OutOfMemory => Came::NoMemory(0),
        _ => Came::Failed(0),
    }
}

// The name by which the system knows a path; None where it can't: the path has a zero byte or isn't UTF-8.
fn name_of(path: &[u8]) -> Option<&str>
    ensures { MatchOption result (Contains path.now 0 ⊎ ¬ (IsUtf8 path.now)) (λ name. (name.now ≡ path.now) × ¬ (Contains path.now 0)) }
{
    if path.contains(&0) {
        return None;
    }
    str::from_utf8(path).ok()
}

// What the system's word of a name stands for; None where the name may be opened.
fn unlike_a_file(about: io::Result<Metadata>) -> Option<Came>
    ensures known { IfOk about (λ m. MatchOption result (¬ (IsDir (file_type m))) (λ came. IsDir (file_type m) × (came ≡ Came.Absent))) }
    ensures unknown { IfErr about (λ e. result ≡ Some (unopened_as (error_kind e))) }
    ensures caused { IfSome result (λ came. IsCaused came) }
{
    match about {
        Ok(about) => {
            if about.is_dir() {
                Some(Came::Absent)
            } else {
                None
            }
        }
        Err(error) => Some(unopened(error.kind())),
    }
}

fn read_path<H: Files>(alloc: Global, rt: &H, path: &[u8]) -> Came
    ensures caused { IsCaused result }
    ensures unnamed { Contains path.now 0 ⊎ ¬ (IsUtf8 path.now) → result ≡ Came.Absent }
{
    let Some(name) = name_of(path) else {
        return Came::Absent;
    };
    if let Some(came) = unlike_a_file(rt.metadata(name)) {
        return came;
    }
    match fs::open(rt, name) {
        Ok(file) => read_all(alloc, &mut CountedReader::new(file)),
        Err(error) => unopened(error.kind()),
    }
}

impl<H: Files + Clone + Drop + Send> Source for DiskSource<H> {
    type Opener = DiskOpener<H>;

    type Given = Given;

    ghost asked = { λ s. s.asked.items };

    ghost origin = { λ _. 0 };

    ghost opener_path = { λ o. o.path };

    ghost opener_origin = { λ _. 0 };

    ghost given_path = { λ g. g.path };

    ghost given_origin = { λ _. 0 };

    ghost given_outcome = { λ g. outcome_of g.came };

    ghost given_bytes = { λ g. bytes_of g.came };

    ghost given_faults = { λ g. faults_of g.came };

    ghost given_came = { λ g. count_of g.came };

    fn ask(&mut self, alloc: Global, path: &PathText) -> Result<DiskOpener<H>, NoMemory> {
        let rt = self.rt.clone()?;
        let name = Bytes::copy(alloc, path.as_slice())?;
        self.asked.push(Bytes::copy(alloc, path.as_slice())?)?;
        Ok(DiskOpener { rt, path: name })
    }

    fn read(alloc: Global, opener: DiskOpener<H>) -> Given {
        let DiskOpener { rt, path } = opener;
        let came = read_path(alloc, &rt, path.as_slice());
        Given::new(path, came)
    }

    fn outcome(given: &Given) -> Outcome {
        given.outcome()
    }

    fn bytes(given: &Given) -> &[u8] {
        given.bytes()
    }
}
