ghost use Rattle.std.specs.Prelude.{◌≡◌, ◌≢◌, ◌<◌, ◌-◌, ◌^◌, ◌++◌, [], IfOk, OnOk, OnErr, length};
ghost use Rattle.std.specs.List.{list_any};
ghost use Rattle.p1689_writer.specs.Document.{document};
ghost use Rattle.report.specs.Counts.{summary};
ghost use Rattle.scanner.specs.Statuses.{number};
ghost use Rattle.scanner.specs.Printed.{is_record, is_no_memory, is_failure, line_of, diagnostics, status_of, failed_status};
ghost use Rattle.scanner.specs.Run.{IsPrintedUnlessNoMemory, IsToldNoMemory};
ghost use Rattle.scanner.specs.Sinks.{put_to, GotAll, GotAny, GotPart, GotPut};

use crate::status::Status;
use file_source::{Failed, Sink};
use report::{fault_line, summary};
use scan_model::{Items, NoMemory, UnitEnd};
use std::alloc::Global;

/// Prints the document of the ends to `out`, and then the lines of the ends that are no record, where there are any, to
/// `err`. All texts are made before the first put. The answer is how the run ends.
pub(crate) fn print_document<K: Sink, E: Sink>(
    alloc: Global,
    ends: &Items<UnitEnd>,
    out: &mut K,
    err: &mut E,
) -> Status
    requires few { length ends.now < 2 ^ 32 - 1 }
    requires out_count { K.faults out.old < 2 ^ 64 - 1 }
    requires err_count { E.faults err.old < 2 ^ 64 - 1 }
    ensures { IsPrintedUnlessNoMemory (document ends.now) ends.now
        (put_to K.held K.faults K.puts out.old out.new) (put_to E.held E.faults E.puts err.old err.new) (number result) }
{
    match p1689_writer::text(alloc, ends) {
        Ok(document) => print_text(alloc, document.as_slice(), ends, out, err),
        Err(NoMemory) => tell_no_memory(err),
    }
}

/// The same with the summary of the ends, and of so many paths, in place of the document.
pub(crate) fn print_summary<K: Sink, E: Sink>(
    alloc: Global,
    ends: &Items<UnitEnd>,
    paths: u64,
    out: &mut K,
    err: &mut E,
) -> Status
    requires few { length ends.now < 2 ^ 32 - 1 }
    requires out_count { K.faults out.old < 2 ^ 64 - 1 }
    requires err_count { E.faults err.old < 2 ^ 64 - 1 }
    ensures { IsPrintedUnlessNoMemory (summary ends.now paths) ends.now
        (put_to K.held K.faults K.puts out.old out.new) (put_to E.held E.faults E.puts err.old err.new) (number result) }
{
    match summary(alloc, ends, paths) {
        Ok(text) => print_text(alloc, text.as_slice(), ends, out, err),
        Err(NoMemory) => tell_no_memory(err),
    }
}

fn print_text<K: Sink, E: Sink>(
    alloc: Global,
    text: &[u8],
    ends: &Items<UnitEnd>,
    out: &mut K,
    err: &mut E,
) -> Status
    requires few { length ends.now < 2 ^ 32 - 1 }
    requires out_count { K.faults out.old < 2 ^ 64 - 1 }
    requires err_count { E.faults err.old < 2 ^ 64 - 1 }
    ensures { IsPrintedUnlessNoMemory text.now ends.now
        (put_to K.held K.faults K.puts out.old out.new) (put_to E.held E.faults E.puts err.old err.new) (number result) }
{
    let Ok(lines) = fault_lines(alloc, ends.as_slice()) else {
        return tell_no_memory(err);
    };
    if put(text, out).is_err() {
        return failed_status(ends.as_slice());
    }
    if put_any(&lines, err).is_err() {
        return failed_status(ends.as_slice());
    }
    status_of(ends.as_slice())
}

/// Tells the error output, as far as it can, that the run found no memory, and answers that.
pub(crate) fn tell_no_memory<E: Sink>(err: &mut E) -> Status
    requires { E.faults err.old < 2 ^ 64 - 1 }
    ensures { IsToldNoMemory (put_to E.held E.faults E.puts err.old err.new) (number result) }
{
    let _ = put(b"no memory\n", err);
    Status::NoMemory
}

/// Puts the text as one piece.
pub(crate) fn put<K: Sink>(text: &[u8], sink: &mut K) -> Result<(), Failed>
    requires { K.faults sink.old < 2 ^ 64 - 1 }
    ensures all { OnOk result (GotAll text.now (put_to K.held K.faults K.puts sink.old sink.new)) }
    ensures part { OnErr result (GotPart text.now (put_to K.held K.faults K.puts sink.old sink.new)) }
    ensures either { GotPut text.now (put_to K.held K.faults K.puts sink.old sink.new) }
{
    sink.put(text)
}

// Puts the text as one piece, where there is any.
fn put_any<K: Sink>(text: &[u8], sink: &mut K) -> Result<(), Failed>
    requires { K.faults sink.old < 2 ^ 64 - 1 }
    ensures all { OnOk result (GotAny text.now (put_to K.held K.faults K.puts sink.old sink.new)) }
    ensures some { OnErr result (text.now ≢ []) }
    ensures part { OnErr result (GotPart text.now (put_to K.held K.faults K.puts sink.old sink.new)) }
{
    if text.is_empty() {
        return Ok(());
    }
    put(text, sink)
}

fn fault_lines(alloc: Global, ends: &[UnitEnd]) -> Result<Vec<u8>, NoMemory>
    requires { length ends.now < 2 ^ 32 - 1 }
    ensures { IfOk result (λ lines. lines.items ≡ diagnostics ends.now) }
{
    let mut lines = Vec::new(alloc);
    for (place, end) in ends.iter().enumerate() {
        add_line(alloc, &mut lines, place as u32 + 1, end)?;
    }
    Ok(lines)
}

// Adds the line of an end that is no record.
fn add_line(alloc: Global, lines: &mut Vec<u8>, number: u32, end: &UnitEnd) -> Result<(), NoMemory>
    ensures { OnOk result (lines.new.items ≡ lines.old.items ++ line_of number end.now) }
{
    if !is_record(end) {
        let line = fault_line(alloc, number, end)?;
        lines.extend_from_slice(line.as_slice())?;
    }
    Ok(())
}

fn is_record(end: &UnitEnd) -> bool
    ensures { result ≡ is_record end.now }
{
    matches!(end, UnitEnd::Record(_))
}

fn is_no_memory(end: &UnitEnd) -> bool
    ensures { result ≡ is_no_memory end.now }
{
    matches!(end, UnitEnd::NoMemory)
}

fn is_failure(end: &UnitEnd) -> bool
    ensures { result ≡ is_failure end.now }
{
    !is_record(end)
}

fn has_no_memory(ends: &[UnitEnd]) -> bool
    ensures { result ≡ list_any is_no_memory ends.now }
{
    ends.iter().any(|end| is_no_memory(end))
}

fn has_failure(ends: &[UnitEnd]) -> bool
    ensures { result ≡ list_any is_failure ends.now }
{
    ends.iter().any(|end| is_failure(end))
}

fn status_of(ends: &[UnitEnd]) -> Status
    ensures { result ≡ status_of ends.now }
{
    if has_no_memory(ends) {
        Status::NoMemory
    } else if has_failure(ends) {
        Status::SomeFailed
    } else {
        Status::Fine
    }
}

fn failed_status(ends: &[UnitEnd]) -> Status
    ensures { result ≡ failed_status ends.now }
{
    if has_no_memory(ends) {
        Status::NoMemory
    } else {
        Status::SinkFault
    }
}
