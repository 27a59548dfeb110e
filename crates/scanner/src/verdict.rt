ghost use Rattle.std.specs.Prelude.{◌≡◌, [], Some, All, IfOk, IfSome, map, option_map};
ghost use Rattle.file_source.specs.Givens.{IsGiven};
ghost use Rattle.program_words.specs.Words.{IsShortWord, texts_of, words_of};
ghost use Rattle.scan_model.specs.Fits.{JobFits};
ghost use Rattle.compile_db.specs.Database.{database};
ghost use Rattle.command_words.specs.Jobs.{job_of};
ghost use Rattle.scanner.specs.Verdict.{database_path, read_of, verdict, of_input, of_read, of_database, of_fault, MannerFits, VerdictFits};
ghost use Rattle.scanner.specs.Asked.{AsksDatabase};

use crate::refusal::Refusal;
use command_words::job;
use compile_db::{DbFault, Entry};
use file_source::Source;
use program_words::{Input, Usage, Words};
use scan_model::{Items, Job, NoMemory, Outcome, PathText, Settings};
use std::alloc::Global;

/// What the program's words say of all commands.
#[derive(Drop)]
pub(crate) struct Manner {
    pub(crate) settings: Settings,
    /// How many workers scan them, from 1 to 64.
    pub(crate) workers: u32,
    /// With which number their schedule begins, below 2 ^ 31.
    pub(crate) schedule: u32,
}

/// The commands to scan, in order.
#[derive(Drop)]
pub(crate) struct Plan {
    pub(crate) jobs: Items<Job>,
    pub(crate) manner: Manner,
}

/// A made tree to scan, of so many units, from 1 to 4096.
#[derive(Drop)]
pub(crate) struct MadePlan {
    pub(crate) units: u32,
    pub(crate) manner: Manner,
}

/// What a run has to do.
#[derive(Drop)]
pub(crate) enum Verdict {
    Refuse(Refusal),
    Scan(Plan),
    Make(MadePlan),
}

/// Reads the words and the database. `Err` is want of memory; what the database's read gave comes back in any case.
pub(crate) fn read_verdict<S: Source>(
    alloc: Global,
    words: &Vec<String>,
    db: &mut S,
) -> (Result<Verdict, NoMemory>, Option<S::Given>)
    requires fresh { S.asked db.old ≡ [] }
    requires short { All IsShortWord words.now.items }
    ensures verdict { IfOk result.0 (λ v. verdict (words_of (texts_of words.now.items))
        (read_of S.given_outcome S.given_bytes result.1) ≡ Some v) }
    ensures fits { IfOk result.0 VerdictFits }
    ensures given { IfSome result.1 (λ g. IsGiven (S.given_outcome g) (S.given_bytes g) (S.given_faults g) (S.given_came g)) }
    ensures given_here { IfSome result.1 (λ g. S.given_origin g ≡ S.origin db.old) }
    ensures same_origin { S.origin db.new ≡ S.origin db.old }
    ensures asked { AsksDatabase (database_path (words_of (texts_of words.now.items))) (S.asked db.new)
        (option_map S.given_path result.1) }
{
    let words = match program_words::read(alloc, words) {
        Ok(Ok(words)) => words,
        Ok(Err(Usage)) => return (Ok(Verdict::Refuse(Refusal::Usage)), None),
        Err(NoMemory) => return (Err(NoMemory), None),
    };
    let Words {
        input,
        settings,
        workers,
        schedule,
    } = words;
    let manner = Manner {
        settings,
        workers,
        schedule,
    };
    match input {
        Input::Database(path) => read_database(alloc, &path, manner, db),
        Input::Made(units) => (Ok(Verdict::Make(MadePlan { units, manner })), None),
    }
}

fn read_database<S: Source>(
    alloc: Global,
    path: &PathText,
    manner: Manner,
    db: &mut S,
) -> (Result<Verdict, NoMemory>, Option<S::Given>)
    requires fresh { S.asked db.old ≡ [] }
    requires manner { MannerFits manner }
    ensures verdict { IfOk result.0 (λ v. of_input manner (Input.Database path.now)
        (read_of S.given_outcome S.given_bytes result.1) ≡ Some v) }
    ensures fits { IfOk result.0 VerdictFits }
    ensures given { IfSome result.1 (λ g. IsGiven (S.given_outcome g) (S.given_bytes g) (S.given_faults g) (S.given_came g)) }
    ensures given_here { IfSome result.1 (λ g. S.given_origin g ≡ S.origin db.old) }
    ensures same_origin { S.origin db.new ≡ S.origin db.old }
    ensures asked { AsksDatabase (Some path.now) (S.asked db.new) (option_map S.given_path result.1) }
{
    let opener = match db.ask(alloc, path) {
        Ok(opener) => opener,
        Err(NoMemory) => return (Err(NoMemory), None),
    };
    let given = S::read(alloc, opener);
    let verdict = of_read(alloc, S::outcome(&given), S::bytes(&given), manner);
    (verdict, Some(given))
}

fn of_read(
    alloc: Global,
    outcome: Outcome,
    bytes: &[u8],
    manner: Manner,
) -> Result<Verdict, NoMemory>
    requires { MannerFits manner }
    ensures verdict { IfOk result (λ v. of_read manner outcome bytes.now ≡ Some v) }
    ensures fits { IfOk result VerdictFits }
{
    match outcome {
        Outcome::Present => of_database(alloc, bytes, manner),
        Outcome::Absent => Ok(Verdict::Refuse(Refusal::DbAbsent)),
        Outcome::Failed => Ok(Verdict::Refuse(Refusal::DbFailed)),
        Outcome::Big => Ok(Verdict::Refuse(Refusal::DbBig)),
        Outcome::NoMemory => Err(NoMemory),
    }
}

fn of_database(alloc: Global, bytes: &[u8], manner: Manner) -> Result<Verdict, NoMemory>
    requires { MannerFits manner }
    ensures verdict { IfOk result (λ v. v ≡ of_database manner (database bytes.now)) }
    ensures fits { IfOk result VerdictFits }
{
    match compile_db::read(alloc, bytes)? {
        Ok(entries) => {
            let jobs = jobs_of(alloc, entries.as_slice())?;
            Ok(Verdict::Scan(Plan { jobs, manner }))
        }
        Err(fault) => Ok(Verdict::Refuse(of_fault(fault))),
    }
}

fn of_fault(fault: DbFault) -> Refusal
    ensures { result ≡ of_fault fault }
{
    match fault {
        DbFault::NotJson => Refusal::NotJson,
        DbFault::NotArray => Refusal::NotArray,
        DbFault::BadEntry(number) => Refusal::BadEntry(number),
        DbFault::TooMany(_) => Refusal::TooMany,
    }
}

// The command of each entry, in order.
fn jobs_of(alloc: Global, entries: &[Entry]) -> Result<Items<Job>, NoMemory>
    ensures jobs { IfOk result (λ jobs. jobs ≡ map (λ entry. job_of entry) entries.now) }
    ensures fits { IfOk result (All JobFits) }
{
    let mut jobs = Vec::with_capacity(alloc, entries.len())?;
    'entries: for entry in entries {
        jobs.push(job(alloc, entry)?)?;
    }
    Ok(Items::of_vec(jobs))
}
