ghost use Rattle.std.specs.Prelude.{◌≡◌, ◌++◌, IfOk, OnOk, length, filter};
ghost use Rattle.report.specs.Counts.{count_line, is_record, is_stopped, summary};

use scan_model::{Bytes, Items, NoMemory, UnitEnd};
use std::alloc::Global;

fn is_record(end: &UnitEnd) -> bool
    ensures { result ≡ is_record end.now }
{
    matches!(end, UnitEnd::Record(_))
}

fn is_stopped(end: &UnitEnd) -> bool
    ensures { result ≡ is_stopped end.now }
{
    matches!(end, UnitEnd::Stopped(_))
}

fn record_count(ends: &[UnitEnd]) -> usize
    ensures { result ≡ length (filter is_record ends.now) }
{
    ends.iter().filter(|end| is_record(end)).count()
}

fn fault_count(ends: &[UnitEnd]) -> usize
    ensures { result ≡ length (filter is_stopped ends.now) }
{
    ends.iter().filter(|end| is_stopped(end)).count()
}

// Appends a line of a name and a count.
fn push_count(alloc: Global, text: &mut Vec<u8>, name: &[u8], count: u64) -> Result<(), NoMemory>
    ensures { OnOk result (text.new.items ≡ text.old.items ++ count_line name.now count) }
{
    text.extend_from_slice(name)?;
    let digits = count.to_string(alloc)?;
    text.extend_from_slice(digits.as_bytes())?;
    Ok(text.push(b'\n')?)
}

/// The summary of a run that scanned these commands and read this many paths: four lines with the number of commands, of
/// records, of faults in a file's text, and of paths. `Err` is want of memory.
pub fn summary(alloc: Global, ends: &Items<UnitEnd>, paths: u64) -> Result<Bytes, NoMemory>
    ensures { IfOk result (λ text. text ≡ summary ends.now paths) }
{
    let ends = ends.as_slice();
    let mut text = Vec::new(alloc);
    push_count(alloc, &mut text, b"commands ", ends.len() as u64)?;
    push_count(alloc, &mut text, b"records ", record_count(ends) as u64)?;
    push_count(alloc, &mut text, b"faults ", fault_count(ends) as u64)?;
    push_count(alloc, &mut text, b"paths ", paths)?;
    Ok(Bytes::of_vec(text))
}
