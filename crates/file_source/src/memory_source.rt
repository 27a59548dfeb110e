ghost use Rattle.std.specs.Prelude.{◌≡◌, [], ◌∷◌, ◌++◌, IfOk, OnOk, OnErr};
ghost use Rattle.file_source.specs.CameOf.{IsCaused, outcome_of, bytes_of, faults_of, count_of};
ghost use Rattle.file_source.specs.Scripts.{came_of_script, outcome_at, scripted_at, times};

use crate::given::Came;
use crate::{Given, Source};
use scan_model::{Bytes, Items, NoMemory, Outcome, PathText};
use std::alloc::Global;

/// What one ask of a path gives.
#[derive(Drop)]
pub enum ScriptedOutcome {
    /// A file with these bytes: Present, or Big where they are too many.
    Bytes(Bytes),
    Absent,
    /// Failed, with one fault.
    Failed,
}

/// What the asks of one path give, in order; the last one again afterwards.
#[derive(Drop)]
pub struct Scripted {
    pub path: PathText,
    pub outcomes: Items<ScriptedOutcome>,
}

/// The right to read one path of a `MemorySource` once.
#[derive(Drop)]
pub struct MemoryOpener {
    path: Bytes,
    gives: ScriptedOutcome,
}

/// Files in memory. Each path gives what a script says, and a path that it doesn't list is Absent.
#[derive(Drop)]
pub struct MemorySource {
    files: Items<Scripted>,
    asked: Vec<Bytes>,
}

impl MemorySource {
    /// Where a path is listed twice, its first entry counts.
    pub fn new(alloc: Global, files: Items<Scripted>) -> Result<MemorySource, NoMemory>
        ensures nothing_asked { IfOk result (λ s. ⟦<MemorySource as Source>⟧.asked s ≡ []) }
        ensures script { IfOk result (λ s. s.files ≡ files) }
    {
        Ok(MemorySource {
            files,
            asked: Vec::new(alloc),
        })
    }
}

impl ScriptedOutcome {
    fn copy(&self, alloc: Global) -> Result<ScriptedOutcome, NoMemory>
        ensures { IfOk result (λ copied. copied ≡ self.now) }
    {
        match self {
            ScriptedOutcome::Bytes(bytes) => {
                Ok(ScriptedOutcome::Bytes(Bytes::copy(alloc, bytes.as_slice())?))
            }
            ScriptedOutcome::Absent => Ok(ScriptedOutcome::Absent),
            ScriptedOutcome::Failed => Ok(ScriptedOutcome::Failed),
        }
    }
}

// How often the path was asked for.
fn times_asked(asked: &[Bytes], path: &[u8]) -> usize
    ensures { result ≡ times path.now asked.now }
{
    let mut count = 0usize;
    for other in asked {
        if other.as_slice() == path {
            count += 1;
        }
    }
    count
}

// The outcome of this number, from 0.
fn copy_outcome(
    alloc: Global,
    outcomes: &[ScriptedOutcome],
    number: usize,
) -> Result<ScriptedOutcome, NoMemory>
    ensures { IfOk result (λ outcome. outcome ≡ outcome_at outcomes.now number) }
{
    if outcomes.is_empty() {
        return Ok(ScriptedOutcome::Absent);
    }
    let last = outcomes.len() - 1;
    outcomes[number.min(last)].copy(alloc)
}

fn find_outcome(
    alloc: Global,
    files: &[Scripted],
    path: &[u8],
    number: usize,
) -> Result<ScriptedOutcome, NoMemory>
    ensures { IfOk result (λ outcome. outcome ≡ scripted_at files.now path.now number) }
{
    for file in files {
        if file.path.as_slice() == path {
            return copy_outcome(alloc, file.outcomes.as_slice(), number);
        }
    }
    Ok(ScriptedOutcome::Absent)
}

impl Source for MemorySource {
    type Opener = MemoryOpener;

    type Given = Given;

    ghost asked = { λ s. s.asked.items };

    ghost origin = { λ _. 0 };

    ghost opener_path = { λ o. o.path };

    ghost opener_origin = { λ _. 0 };

    ghost given_path = { λ g. g.path };

    ghost given_origin = { λ _. 0 };

    ghost given_outcome = { λ g. outcome_of g.came };

    ghost given_bytes = { λ g. bytes_of g.came };

    ghost given_faults = { λ g. faults_of g.came };

    ghost given_came = { λ g. count_of g.came };

    fn ask(&mut self, alloc: Global, path: &PathText) -> Result<MemoryOpener, NoMemory>
        ensures ok { OnOk result (self.new.asked.items ≡ self.old.asked.items ++ path.now ∷ []) }
        ensures opener { IfOk result (λ opener. opener.path ≡ path.now) }
        ensures err { OnErr result (self.new.asked.items ≡ self.old.asked.items) }
        ensures gives { IfOk result (λ opener. opener.gives ≡ scripted_at self.old.files path.now (times path.now self.old.asked.items)) }
        ensures same_script { self.new.files ≡ self.old.files }
    {
        let number = times_asked(&self.asked, path.as_slice());
        let gives = find_outcome(alloc, self.files.as_slice(), path.as_slice(), number)?;
        let name = Bytes::copy(alloc, path.as_slice())?;
        self.asked.push(Bytes::copy(alloc, path.as_slice())?)?;
        Ok(MemoryOpener { path: name, gives })
    }

    fn read(_alloc: Global, opener: MemoryOpener) -> Given
        ensures path { result.path ≡ opener.path }
        ensures caused { IsCaused result.came }
        ensures scripted { result.came ≡ came_of_script opener.gives }
    {
        let MemoryOpener { path, gives } = opener;
        let came = match gives {
            ScriptedOutcome::Bytes(bytes) => Came::of_bytes(bytes),
            ScriptedOutcome::Absent => Came::Absent,
            ScriptedOutcome::Failed => Came::Failed(0),
        };
        Given::new(path, came)
    }

    fn outcome(given: &Given) -> Outcome {
        given.outcome()
    }

    fn bytes(given: &Given) -> &[u8] {
        given.bytes()
    }
}
