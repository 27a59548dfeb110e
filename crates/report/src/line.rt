ghost use Rattle.std.specs.Prelude.{◌≡◌, ◌++◌, IfOk, OnOk, decimal};
ghost use Rattle.report.specs.FaultLines.{IsFault, fault_line as line_text, end_text, place_text};

use crate::names::{command_fault_name, fault_name};
use scan_model::{Bytes, NoMemory, Place, UnitEnd};
use std::alloc::Global;

/// The line for a command that did not end with a record: `command K: PATH:LINE: NAME` where a file's text stopped
/// the unit, and `command K: NAME` where the command was refused or memory ran out. A newline is last.
///
/// `number` counts the commands from 1. The path is written as its bytes are, which need not be UTF-8.
pub fn fault_line(alloc: Global, number: u32, end: &UnitEnd) -> Result<Bytes, NoMemory>
    requires { IsFault end.now }
    ensures { IfOk result (λ line. line ≡ line_text number end.now) }
{
    let mut line = Vec::from_slice(alloc, b"command ")?;
    push_number(alloc, &mut line, number)?;
    line.extend_from_slice(b": ")?;
    push_end(alloc, &mut line, end)?;
    line.extend_from_slice(b"\n")?;
    Ok(Bytes::of_vec(line))
}

/// Appends the fault, and its place where it has one.
fn push_end(alloc: Global, line: &mut Vec<u8>, end: &UnitEnd) -> Result<(), NoMemory>
    requires { IsFault end.now }
    ensures { OnOk result (line.new.items ≡ line.old.items ++ end_text end.now) }
{
    match end {
        UnitEnd::Record(_) => unreachable!(),
        UnitEnd::Stopped(fault) => {
            push_place(alloc, line, &fault.place)?;
            line.extend_from_slice(fault_name(fault.kind).as_bytes())?;
        }
        UnitEnd::Refused(fault) => {
            line.extend_from_slice(command_fault_name(*fault).as_bytes())?;
        }
        UnitEnd::NoMemory => line.extend_from_slice(b"NoMemory")?,
    }
    Ok(())
}

/// Appends the path, the line and what parts them from a name.
fn push_place(alloc: Global, line: &mut Vec<u8>, place: &Place) -> Result<(), NoMemory>
    ensures { OnOk result (line.new.items ≡ line.old.items ++ place_text place.now) }
{
    line.extend_from_slice(place.path.as_slice())?;
    line.extend_from_slice(b":")?;
    push_number(alloc, line, place.line)?;
    Ok(line.extend_from_slice(b": ")?)
}

/// Appends a number's decimal digits.
fn push_number(alloc: Global, line: &mut Vec<u8>, number: u32) -> Result<(), NoMemory>
    ensures { OnOk result (line.new.items ≡ line.old.items ++ decimal number) }
{
    let digits = number.to_string(alloc)?;
    Ok(line.extend_from_slice(digits.as_bytes())?)
}
