use crate::{Meeting, MeetingSource};
use file_source::{MadeFile, Source};
use path_search::normal;
use scan_model::{Bytes, Items, Outcome};
use std::alloc::Global;
use std::test::Fail;

// One file, and a meeting of two others.
fn source(alloc: Global) -> Result<MeetingSource, Fail> {
    let mut files = Vec::new(alloc);
    files.push(MadeFile {
        path: normal(alloc, b"/p/a.h")?,
        text: Bytes::copy(alloc, b"a")?,
    })?;
    let (first, second) = (normal(alloc, b"/p/a.h")?, normal(alloc, b"/p/b.h")?);
    let meeting = Meeting::new(alloc, first, second, 3)?;
    Ok(MeetingSource::new(alloc, Items::of_vec(files), meeting)?)
}

#[test]
fn a_read_alone_waits_in_vain(rt: HostRuntime) -> Result<(), Fail> {
    let alloc = rt.alloc();
    let mut source = source(alloc)?;
    let first = source.ask(alloc, &normal(alloc, b"/p/a.h")?)?;
    let second = source.ask(alloc, &normal(alloc, b"/p/b.h")?)?;
    let given = MeetingSource::read(alloc, first);
    assert!(rt; matches!(MeetingSource::outcome(&given), Outcome::Failed));
    // The other has begun already.
    let given = MeetingSource::read(alloc, second);
    assert!(rt; matches!(MeetingSource::outcome(&given), Outcome::Absent));
    Ok(())
}
