use crate::{BadCommand, job, split};
use compile_db::{Entry, EntryWords};
use scan_model::{Command, CommandFault, Dialect, Items, Job, NoMemory, PathText, Setting, Text};
use std::alloc::Global;
use std::process::Abort;
use std::test::Fail;

// An entry, and the main path and the output of its command.
#[derive(Clone, Copy)]
struct Row {
    directory: &'static str,
    file: &'static str,
    main: &'static str,
    output: &'static str,
}

const ROWS: [Row; 6] = [
    Row {
        directory: "/p",
        file: "u.cpp",
        main: "/p/u.cpp",
        output: "u.o",
    },
    Row {
        directory: "/p/./build/",
        file: "../src/a.b.cppm",
        main: "/p/build/../src/a.b.cppm",
        output: "a.b.o",
    },
    Row {
        directory: "/p",
        file: "/q//m",
        main: "/q/m",
        output: "m.o",
    },
    Row {
        directory: "",
        file: "",
        main: ".",
        output: ".o",
    },
    Row {
        directory: ".",
        file: "d/",
        main: "d",
        output: ".o",
    },
    Row {
        directory: "d",
        file: ".x",
        main: "d/.x",
        output: ".o",
    },
];

fn words(alloc: Global, option: &str) -> Result<Items<Text>, NoMemory> {
    let mut words = Vec::new(alloc);
    words.push(Text::copy(alloc, "c++")?)?;
    words.push(Text::copy(alloc, option)?)?;
    Ok(Items::of_vec(words))
}

fn entry(alloc: Global, row: &Row, option: &str) -> Result<Entry, NoMemory> {
    Ok(Entry {
        directory: Text::copy(alloc, row.directory)?,
        file: Text::copy(alloc, row.file)?,
        words: EntryWords::Arguments(words(alloc, option)?),
        output: None,
    })
}

fn is_as_said(rt: &impl Abort, alloc: Global, row: &Row) -> Result<(), Fail> {
    let entry = entry(alloc, row, "-c")?;
    let Job::Run(command) = job(alloc, &entry)? else {
        return Err("refused".into());
    };
    assert_eq!(rt; command.main.as_slice(), row.main.as_bytes());
    assert_eq!(rt; command.source.as_slice(), row.main.as_bytes());
    assert_eq!(rt; command.output.as_slice(), row.output.as_bytes());
    Ok(())
}

#[test]
fn commands(rt: HostRuntime) -> Result<(), Fail> {
    for row in ROWS {
        is_as_said(&rt, rt.alloc(), &row)?;
    }
    Ok(())
}

// A command's text, and its words with a bar behind each; `!` where it is refused.
#[derive(Clone, Copy)]
struct SplitRow {
    text: &'static str,
    words: &'static str,
}

const SPLITS: [SplitRow; 10] = [
    SplitRow {
        text: "a \"b\\c\" 'd \"e' f\\ g \"\"",
        words: "a|b\\c|d \"e|f g||",
    },
    SplitRow {
        text: "",
        words: "",
    },
    SplitRow {
        text: " a\t\r\nb ",
        words: "a|b|",
    },
    SplitRow {
        text: "c++ \"x",
        words: "!",
    },
    SplitRow {
        text: "a \\",
        words: "!",
    },
    SplitRow {
        text: "a 'b\\'c'",
        words: "!",
    },
    SplitRow {
        text: "a'b'\"c\"d",
        words: "abcd|",
    },
    SplitRow {
        text: "\"\\\"\\\\\" -DN=\\\"app\\\"",
        words: "\"\\|-DN=\"app\"|",
    },
    SplitRow {
        text: "\\é \"\\é\"",
        words: "é|\\é|",
    },
    SplitRow {
        text: "'' \"\"''",
        words: "||",
    },
];

fn put(shown: &mut Vec<u8>, mark: &[u8], text: &[u8]) -> Result<(), NoMemory> {
    shown.extend_from_slice(mark)?;
    shown.extend_from_slice(text)?;
    shown.push(b'|')?;
    Ok(())
}

fn shown_words(alloc: Global, text: &str) -> Result<Vec<u8>, NoMemory> {
    let mut shown = Vec::new(alloc);
    match split(alloc, text.as_bytes())? {
        Ok(words) => {
            for word in words.as_slice() {
                put(&mut shown, b"", word.as_slice())?;
            }
        }
        Err(BadCommand) => shown.push(b'!')?,
    }
    Ok(shown)
}

#[test]
fn texts_are_split(rt: HostRuntime) -> Result<(), Fail> {
    for row in SPLITS {
        let shown = shown_words(rt.alloc(), row.text)?;
        assert_eq!(rt; shown.as_slice(), row.words.as_bytes());
    }
    Ok(())
}

// A command's text for the file `u.cpp` in `/p`, and what its job is: macros, forced files, folders, output, dialect.
#[derive(Clone, Copy)]
struct JobRow {
    text: &'static str,
    job: &'static str,
}

const JOBS: [JobRow; 15] = [
    JobRow {
        text: "c++ -DA -D B=1=2 -UC -U D",
        job: "D:A 1|D:B 1=2|U:C|U:D|o:u.o|20",
    },
    JobRow {
        text: "c++ -Iinc -I /q//r -isystem s -isystemt -iquote q -idirafterx",
        job: "Q:/p/q|I:/p/inc|I:/q/r|S:/p/s|S:/p/t|A:/p/x|o:u.o|20",
    },
    JobRow {
        text: "c++ -include a.h -includeb -o x -oy -c u.cpp @f",
        job: "F:a.h|o:y|20",
    },
    JobRow {
        text: "c++ -x -DA -MF -I -target -imacros -arch -o -std=c++23 -MT -std=c++17",
        job: "o:u.o|23",
    },
    JobRow {
        text: "c++ -std=gnu++2b -std=c++17",
        job: "o:u.o|20",
    },
    JobRow {
        text: "c++ -I -std=c++23",
        job: "I:/p/-std=c++23|o:u.o|20",
    },
    JobRow {
        text: "c++ -D",
        job: "BadCommand",
    },
    JobRow {
        text: "c++ -imacros f.h -D",
        job: "UnsupportedOption",
    },
    JobRow {
        text: "c++ '-DA\nB' -imacros",
        job: "BadCommand",
    },
    JobRow {
        text: "c++ -imacros f.h \"x",
        job: "BadCommand",
    },
    JobRow {
        text: "-D",
        job: "o:u.o|20",
    },
    JobRow {
        text: "",
        job: "o:u.o|20",
    },
    JobRow {
        text: "c++ -isystem-after -openmp -MFfoo",
        job: "o:penmp|20",
    },
    JobRow {
        text: "c++ -D '' -D=x",
        job: "D: 1|D: x|o:u.o|20",
    },
    JobRow {
        text: "c++ -I=x -iquote",
        job: "BadCommand",
    },
];

fn put_folders(
    shown: &mut Vec<u8>,
    mark: &[u8],
    folders: &Items<PathText>,
) -> Result<(), NoMemory> {
    for folder in folders.as_slice() {
        put(shown, mark, folder.as_slice())?;
    }
    Ok(())
}

fn put_added(shown: &mut Vec<u8>, command: &Command) -> Result<(), NoMemory> {
    for setting in command.settings.as_slice() {
        match setting {
            Setting::Define(text) => put(shown, b"D:", text.as_slice())?,
            Setting::Undef(text) => put(shown, b"U:", text.as_slice())?,
        }
    }
    for name in command.forced.as_slice() {
        put(shown, b"F:", name.as_slice())?;
    }
    Ok(())
}

fn shown_command(alloc: Global, command: &Command) -> Result<Vec<u8>, NoMemory> {
    let mut shown = Vec::new(alloc);
    put_added(&mut shown, command)?;
    put_folders(&mut shown, b"Q:", &command.search.quote)?;
    put_folders(&mut shown, b"I:", &command.search.angled)?;
    put_folders(&mut shown, b"S:", &command.search.system)?;
    put_folders(&mut shown, b"A:", &command.search.after)?;
    put(&mut shown, b"o:", command.output.as_slice())?;
    match command.dialect {
        Dialect::Cxx20 => shown.extend_from_slice(b"20")?,
        Dialect::Cxx23 => shown.extend_from_slice(b"23")?,
    }
    Ok(shown)
}

fn shown_job(alloc: Global, text: &str) -> Result<Vec<u8>, NoMemory> {
    let entry = Entry {
        directory: Text::copy(alloc, "/p")?,
        file: Text::copy(alloc, "u.cpp")?,
        words: EntryWords::Command(Text::copy(alloc, text)?),
        output: None,
    };
    match job(alloc, &entry)? {
        Job::Run(command) => shown_command(alloc, &command),
        Job::Refused(CommandFault::BadCommand) => Ok(Vec::from_slice(alloc, b"BadCommand")?),
        Job::Refused(CommandFault::UnsupportedOption) => {
            Ok(Vec::from_slice(alloc, b"UnsupportedOption")?)
        }
    }
}

#[test]
fn jobs_of_texts(rt: HostRuntime) -> Result<(), Fail> {
    for row in JOBS {
        let shown = shown_job(rt.alloc(), row.text)?;
        assert_eq!(rt; shown.as_slice(), row.job.as_bytes());
    }
    Ok(())
}

// The entry's own output counts, and words that stand one by one aren't split.
#[test]
fn job_of_arguments(rt: HostRuntime) -> Result<(), Fail> {
    let mut entry = entry(rt.alloc(), &ROWS[1], "-oa b")?;
    entry.output = Some(Text::copy(rt.alloc(), "k.o")?);
    let Job::Run(command) = job(rt.alloc(), &entry)? else {
        return Err("refused".into());
    };
    assert_eq!(rt; command.main.as_slice(), ROWS[1].main.as_bytes());
    assert_eq!(rt; command.output.as_slice(), b"k.o".as_slice());
    Ok(())
}
