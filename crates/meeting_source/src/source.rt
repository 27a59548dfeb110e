ghost use Rattle.std.specs.Prelude.{◌≡◌, [], IfOk};
ghost use Rattle.meeting_source.specs.Missing.{outcome_after, bytes_after, faults_after, came_after};

use crate::Meeting;
use crate::meeting::Part;
use file_source::{Given, MadeFile, MemoryOpener, MemorySource, Scripted, ScriptedOutcome, Source};
use scan_model::{Items, NoMemory, Outcome, PathText};
use std::alloc::Global;

/// Made files in memory. The read of one of the two paths of its meeting fails where that of the other doesn't begin.
#[derive(Drop)]
pub struct MeetingSource {
    files: MemorySource,
    meeting: Meeting,
}

/// The right to read one path of a `MeetingSource` once.
#[derive(Drop)]
pub struct MeetingOpener {
    opener: MemoryOpener,
    meeting: Meeting,
    part: Part,
}

/// What one read of a `MeetingSource` gave.
#[derive(Drop)]
pub struct MeetingGiven {
    given: Given,
    /// It waited for the other read in vain.
    missed: bool,
}

impl MeetingSource {
    /// Where a path is listed twice, its first text counts. A path that isn't listed is Absent.
    pub fn new(
        alloc: Global,
        files: Items<MadeFile>,
        meeting: Meeting,
    ) -> Result<MeetingSource, NoMemory>
        ensures { IfOk result (λ s. ⟦<MeetingSource as Source>⟧.asked s ≡ []) }
    {
        let mut scripts = Vec::with_capacity(alloc, files.as_slice().len())?;
        'files: for file in files.into_vec() {
            scripts.push(scripted(alloc, file)?)?;
        }
        Ok(MeetingSource {
            files: MemorySource::new(alloc, Items::of_vec(scripts))?,
            meeting,
        })
    }
}

// The file's text, at each ask.
fn scripted(alloc: Global, file: MadeFile) -> Result<Scripted, NoMemory> {
    let MadeFile { path, text } = file;
    let mut outcomes = Vec::with_capacity(alloc, 1)?;
    outcomes.push(ScriptedOutcome::Bytes(text))?;
    Ok(Scripted {
        path,
        outcomes: Items::of_vec(outcomes),
    })
}

impl Source for MeetingSource {
    type Opener = MeetingOpener;

    type Given = MeetingGiven;

    ghost asked = { λ s. ⟦<MemorySource as Source>⟧.asked s.files };

    ghost origin = { λ s. ⟦<MemorySource as Source>⟧.origin s.files };

    ghost opener_path = { λ o. ⟦<MemorySource as Source>⟧.opener_path o.opener };

    ghost opener_origin = { λ o. ⟦<MemorySource as Source>⟧.opener_origin o.opener };

    ghost given_path = { λ g. ⟦<MemorySource as Source>⟧.given_path g.given };

    ghost given_origin = { λ g. ⟦<MemorySource as Source>⟧.given_origin g.given };

    ghost given_outcome = { λ g. outcome_after g.missed (⟦<MemorySource as Source>⟧.given_outcome g.given) };

    ghost given_bytes = { λ g. bytes_after g.missed (⟦<MemorySource as Source>⟧.given_bytes g.given) };

    ghost given_faults = { λ g. faults_after g.missed (⟦<MemorySource as Source>⟧.given_faults g.given) };

    ghost given_came = { λ g. came_after g.missed (⟦<MemorySource as Source>⟧.given_came g.given) };

    fn ask(&mut self, alloc: Global, path: &PathText) -> Result<MeetingOpener, NoMemory> {
        let meeting = self.meeting.share()?;
        let part = meeting.part_of(path.as_slice());
        let opener = self.files.ask(alloc, path)?;
        Ok(MeetingOpener {
            opener,
            meeting,
            part,
        })
    }

    fn read(alloc: Global, opener: MeetingOpener) -> MeetingGiven {
        let MeetingOpener {
            opener,
            meeting,
            part,
        } = opener;
        let missed = !meeting.meets(part);
        MeetingGiven {
            given: MemorySource::read(alloc, opener),
            missed,
        }
    }

    fn outcome(given: &MeetingGiven) -> Outcome {
        if given.missed {
            Outcome::Failed
        } else {
            MemorySource::outcome(&given.given)
        }
    }

    fn bytes(given: &MeetingGiven) -> &[u8] {
        if given.missed {
            &[]
        } else {
            MemorySource::bytes(&given.given)
        }
    }
}
