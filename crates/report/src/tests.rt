use crate::{fault_line, summary};
use scan_model::{Bytes, CommandFault, Fault, FaultKind, Items, Place, Record, Text, UnitEnd};
use std::alloc::Global;
use std::test::Fail;

fn stopped(alloc: Global, kind: FaultKind, path: &[u8], line: u32) -> Option<UnitEnd> {
    let path = Bytes::copy(alloc, path).ok()?;
    Some(UnitEnd::Stopped(Fault {
        kind,
        place: Place { path, line },
    }))
}

fn writes(alloc: Global, number: u32, end: Option<UnitEnd>, want: &[u8]) -> bool {
    let Some(end) = end else {
        return false;
    };
    if let UnitEnd::Record(_) = end {
        return false;
    }
    match fault_line(alloc, number, &end) {
        Ok(line) => line.as_slice() == want,
        Err(_) => false,
    }
}

#[test]
fn lines_have_three_forms(rt: HostRuntime) {
    let alloc = rt.alloc();
    let header = stopped(alloc, FaultKind::HeaderUnit, b"/p/a.cpp", 1);
    assert!(rt; writes(alloc, 1, header, b"command 1: /p/a.cpp:1: HeaderUnit\n"));
    let raw = stopped(alloc, FaultKind::ReadFault, b"/p/\xff: b", 0);
    assert!(rt; writes(alloc, 12, raw, b"command 12: /p/\xff: b:0: ReadFault\n"));
    let last = stopped(alloc, FaultKind::ExpansionTooLong, b"/p/u.cpp", 4294967295);
    assert!(rt;
        writes(
            alloc,
            131072,
            last,
            b"command 131072: /p/u.cpp:4294967295: ExpansionTooLong\n"
        )
    );
    let option = UnitEnd::Refused(CommandFault::UnsupportedOption);
    assert!(rt; writes(alloc, 2, Some(option), b"command 2: UnsupportedOption\n"));
    let bad = UnitEnd::Refused(CommandFault::BadCommand);
    assert!(rt; writes(alloc, 3, Some(bad), b"command 3: BadCommand\n"));
    assert!(rt; writes(alloc, 4, Some(UnitEnd::NoMemory), b"command 4: NoMemory\n"));
}

fn record(alloc: Global) -> Option<UnitEnd> {
    Some(UnitEnd::Record(Record {
        output: Text::copy(alloc, "u.o").ok()?,
        source: Text::copy(alloc, "/p/u.cpp").ok()?,
        provides: None,
        required: Items::new(alloc),
    }))
}

fn some_ends(alloc: Global) -> Option<Items<UnitEnd>> {
    let refused = UnitEnd::Refused(CommandFault::BadCommand);
    let ends = vec![in alloc;
        record(alloc)?,
        stopped(alloc, FaultKind::BadLine, b"/p/u.cpp", 2)?,
        refused,
        record(alloc)?,
        UnitEnd::NoMemory,
        record(alloc)?,
    ]
    .ok()?;
    Some(Items::of_vec(ends))
}

#[test]
fn a_summary_counts_each_kind(rt: HostRuntime) -> Result<(), Fail> {
    let Some(ends) = some_ends(rt.alloc()) else {
        return Err("memory".into());
    };
    let text = summary(rt.alloc(), &ends, 18446744073709551615)?;
    let want = b"commands 6\nrecords 3\nfaults 1\npaths 18446744073709551615\n";
    assert_eq!(rt; text.as_slice(), want.as_slice());
    Ok(())
}
