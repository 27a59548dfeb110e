ghost use Rattle.std.specs.Prelude.{◌≡◌, ◌≤◌, All, IfOk, length};
ghost use Rattle.scan_model.specs.Fits.{JobFits};
ghost use Rattle.made_scan.specs.MadeJobs.{unit_name, made_words, made_entry, made_job, made_jobs};

use command_words::job;
use compile_db::{Entry, EntryWords};
use scan_model::{Items, Job, NoMemory, Text};
use std::alloc::Global;

/// The jobs of the units 1 to `n`.
pub(crate) fn made_jobs(alloc: Global, n: u32) -> Result<Items<Job>, NoMemory>
    requires { n ≤ 4096 }
    ensures jobs { IfOk result (λ jobs. jobs ≡ made_jobs n) }
    ensures number { IfOk result (λ jobs. length jobs ≡ n) }
    ensures fit { IfOk result (λ jobs. All (λ job. JobFits job) jobs) }
{
    let mut jobs = Vec::new(alloc);
    for unit in 1..n + 1 {
        jobs.push(made_job(alloc, unit)?)?;
    }
    Ok(Items::of_vec(jobs))
}

#[tactic(auto, unfolding(crate::specs::MadeJobs::made_job))]
fn made_job(alloc: Global, unit: u32) -> Result<Job, NoMemory>
    ensures is { IfOk result (λ job. job ≡ made_job unit) }
    ensures fits { IfOk result (λ job. JobFits job) }
{
    let entry = made_entry(alloc, unit)?;
    job(alloc, &entry)
}

/// What the database of a made tree says of a unit.
pub(crate) fn made_entry(alloc: Global, unit: u32) -> Result<Entry, NoMemory>
    ensures { IfOk result (λ entry. entry ≡ made_entry unit) }
{
    Ok(Entry {
        directory: Text::copy(alloc, "/m")?,
        file: unit_name(alloc, unit)?,
        words: EntryWords::Arguments(made_words(alloc, unit)?),
        output: None,
    })
}

fn made_words(alloc: Global, unit: u32) -> Result<Items<Text>, NoMemory>
    ensures { IfOk result (λ words. words ≡ made_words unit) }
{
    let mut words = Vec::new(alloc);
    words.push(Text::copy(alloc, "c++")?)?;
    words.push(Text::copy(alloc, "-c")?)?;
    words.push(unit_name(alloc, unit)?)?;
    Ok(Items::of_vec(words))
}

fn unit_name(alloc: Global, unit: u32) -> Result<Text, NoMemory>
    ensures { IfOk result (λ name. name ≡ unit_name unit) }
{
    Ok(Text::of_string(format!(in alloc; "u{unit}.cppm")?))
}
