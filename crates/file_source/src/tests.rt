ghost use Rattle.std.specs.Prelude.{◌≡◌};
ghost use Rattle.scan_model.specs.Paths.{IsNormal};

use crate::counted_reader::CountedReader;
use crate::reading::read_all;
use crate::{
    DiskSource, Listed, MadeFile, MemorySink, MemorySource, OutSink, PlainSource, Scripted,
    ScriptedOutcome, Sink, Source,
};
use scan_model::{Bytes, Items, Outcome, PathText};
use std::alloc::Global;
use std::io::{ErrorKind, Read};
use std::marker::Brand;
use std::test::Fail;
use std::{fs, io};

fn path(alloc: Global, name: &[u8]) -> Result<PathText, Fail>
    requires { IsNormal name.now }
{
    Ok(PathText::of_normal(Bytes::copy(alloc, name)?))
}

#[tactic(auto, unfolding(scan_model::specs::Paths::normal))]
fn path_w(alloc: Global) -> Result<PathText, Fail> {
    path(alloc, b"w")
}

#[tactic(auto, unfolding(scan_model::specs::Paths::normal))]
fn path_m(alloc: Global) -> Result<PathText, Fail> {
    path(alloc, b"m")
}

#[tactic(auto, unfolding(scan_model::specs::Paths::normal))]
fn path_here(alloc: Global) -> Result<PathText, Fail> {
    path(alloc, b".")
}

// A name that no file has, since it has a zero byte.
#[tactic(auto, unfolding(scan_model::specs::Paths::normal))]
fn path_with_zero(alloc: Global) -> Result<PathText, Fail> {
    path(alloc, b"w\0")
}

// A name that isn't UTF-8.
#[tactic(auto, unfolding(scan_model::specs::Paths::normal))]
fn path_of_no_text(alloc: Global) -> Result<PathText, Fail> {
    path(alloc, b"\xff")
}

// A name below a file.
#[tactic(auto, unfolding(scan_model::specs::Paths::normal))]
fn path_below(alloc: Global) -> Result<PathText, Fail> {
    path(alloc, b"w/m")
}

// A script for the path `w` alone.
fn script(alloc: Global) -> Result<Items<Scripted>, Fail> {
    let mut outcomes = Vec::new(alloc);
    outcomes.push(ScriptedOutcome::Bytes(Bytes::copy(alloc, b"text")?))?;
    outcomes.push(ScriptedOutcome::Failed)?;
    outcomes.push(ScriptedOutcome::Absent)?;
    let mut files = Vec::new(alloc);
    files.push(Scripted {
        path: path_w(alloc)?,
        outcomes: Items::of_vec(outcomes),
    })?;
    Ok(Items::of_vec(files))
}

// Whether a source gives this for a path.
fn gives<S: Source>(
    alloc: Global,
    source: &mut S,
    path: &PathText,
    outcome: Outcome,
    bytes: &[u8],
) -> Result<bool, Fail> {
    let given = S::read(alloc, source.ask(alloc, path)?);
    Ok(S::outcome(&given) == outcome && S::bytes(&given) == bytes)
}

#[test]
fn memory_source_follows_its_script(rt: HostRuntime) -> Result<(), Fail> {
    let alloc = rt.alloc();
    let mut source = MemorySource::new(alloc, script(alloc)?)?;
    let w = path_w(alloc)?;
    assert!(rt; gives(alloc, &mut source, &w, Outcome::Present, b"text")?);
    assert!(rt; gives(alloc, &mut source, &w, Outcome::Failed, b"")?);
    Ok(())
}

fn made_files(alloc: Global) -> Result<Items<MadeFile>, Fail> {
    let mut files = Vec::new(alloc);
    files.push(MadeFile {
        path: path_w(alloc)?,
        text: Bytes::copy(alloc, b"one")?,
    })?;
    files.push(MadeFile {
        path: path_m(alloc)?,
        text: Bytes::copy(alloc, b"two")?,
    })?;
    Ok(Items::of_vec(files))
}

// Whether a source of these files gives `one` for `w`, `two` for `m`, and nothing for `.`.
fn plain_gives<J: Listed + Send + Sync>(alloc: Global, files: Items<MadeFile>) -> Result<bool, Fail>
    requires { files ≡ J.files }
{
    let mut source = PlainSource::<J>::new(alloc, files)?;
    let one = gives(
        alloc,
        &mut source,
        &path_w(alloc)?,
        Outcome::Present,
        b"one",
    )?;
    let two = gives(
        alloc,
        &mut source,
        &path_m(alloc)?,
        Outcome::Present,
        b"two",
    )?;
    let none = gives(alloc, &mut source, &path_here(alloc)?, Outcome::Absent, b"")?;
    Ok(one && two && none)
}

#[test]
fn plain_source_gives_what_is_listed(rt: HostRuntime) -> Result<(), Fail> {
    let alloc = rt.alloc();
    assert!(rt; plain_gives::<Brand>(alloc, made_files(alloc)?)?);
    Ok(())
}

#[test]
fn memory_sink_fails_as_it_is_told(rt: HostRuntime) -> Result<(), Fail> {
    let alloc = rt.alloc();
    let failing = Items::of_vec(vec![in alloc; 2u32]?);
    let mut sink = MemorySink::new(alloc, 7, failing)?;
    assert!(rt; sink.put(b"ab").is_ok());
    assert!(rt; sink.put(b"cdefg").is_err());
    assert!(rt; sink.put(b"hijk").is_err());
    assert!(rt; sink.put(b"").is_ok());
    assert_eq!(rt; sink.bytes(), b"abcdhij".as_slice());
    Ok(())
}

#[test]
fn disk_source_reads_files(rt: HostRuntime) -> Result<(), Fail> {
    let alloc = rt.alloc();
    fs::write(&rt, "w", b"on the disk".as_slice())?;
    let mut source = DiskSource::new(rt.clone()?, alloc);
    assert!(rt;
        gives(
            alloc,
            &mut source,
            &path_w(alloc)?,
            Outcome::Present,
            b"on the disk"
        )?
    );
    let absent = [
        path_m(alloc)?,
        path_here(alloc)?,
        path_with_zero(alloc)?,
        path_of_no_text(alloc)?,
        path_below(alloc)?,
    ];
    for path in &absent {
        assert!(rt; gives(alloc, &mut source, path, Outcome::Absent, b"")?);
    }
    fs::remove_file(&rt, "w")?;
    Ok(())
}

// A reader that gives so many bytes, one at a time, and then fails.
#[derive(Drop)]
struct Breaking {
    left: usize,
    kind: ErrorKind,
}

impl Read for Breaking {
    fn read(&mut self, buf: &mut [u8]) -> io::Result<usize> {
        if self.left == 0 || buf.is_empty() {
            return Err(io::Error::from(self.kind));
        }
        buf[0] = b'x';
        self.left -= 1;
        Ok(1)
    }
}

// What comes of a reader that fails so after three bytes.
fn broken(alloc: Global, kind: ErrorKind) -> Outcome {
    let mut file = CountedReader::new(Breaking { left: 3, kind });
    read_all(alloc, &mut file).outcome()
}

#[test]
fn a_read_that_fails_in_the_middle_is_no_file(rt: HostRuntime) -> Result<(), Fail> {
    let alloc = rt.alloc();
    assert!(rt; broken(alloc, ErrorKind::Other) == Outcome::Failed);
    assert!(rt; broken(alloc, ErrorKind::NotFound) == Outcome::Failed);
    assert!(rt; broken(alloc, ErrorKind::OutOfMemory) == Outcome::NoMemory);
    Ok(())
}

// A writer of little room.
#[derive(Drop)]
struct Narrow {
    room: usize,
}

impl io::Write for Narrow {
    fn write(&mut self, buf: &[u8]) -> io::Result<usize> {
        let taken = self.room.min(buf.len());
        self.room -= taken;
        Ok(taken)
    }

    fn flush(&mut self) -> io::Result<()> {
        Ok(())
    }
}

#[test]
fn out_sink_fails_where_its_writer_is_full(rt: HostRuntime) -> Result<(), Fail> {
    let mut sink = OutSink::new(Narrow { room: 3 });
    assert!(rt; sink.put(b"ab").is_ok());
    assert!(rt; sink.put(b"cd").is_err());
    assert!(rt; sink.put(b"").is_ok());
    Ok(())
}

// A writer that takes all and can't hand it on.
#[derive(Drop)]
struct Unflushed;

impl io::Write for Unflushed {
    fn write(&mut self, buf: &[u8]) -> io::Result<usize> {
        Ok(buf.len())
    }

    fn flush(&mut self) -> io::Result<()> {
        Err(io::Error::from(ErrorKind::Other))
    }
}

#[test]
fn out_sink_fails_where_its_writer_does_not_flush(rt: HostRuntime) -> Result<(), Fail> {
    let mut sink = OutSink::new(Unflushed);
    assert!(rt; sink.put(b"ab").is_err());
    assert!(rt; sink.put(b"").is_err());
    Ok(())
}
