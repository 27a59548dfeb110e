use crate::{Input, Usage, is_alone, read};
use scan_model::NoMemory;
use std::alloc::{AllocError, Global};
use std::test::Fail;

// The program's name and these words, which blanks part.
fn words_of(alloc: Global, text: &str) -> Result<Vec<String>, AllocError> {
    let mut words = Vec::new(alloc);
    words.push(String::from_str(alloc, "scan_deps")?)?;
    for word in text.split(' ') {
        if !word.is_empty() {
            words.push(String::from_str(alloc, word)?)?;
        }
    }
    Ok(words)
}

// Words, and whether they ask for a run on one thread.
#[derive(Clone, Copy)]
struct AloneRow {
    words: &'static str,
    alone: bool,
}

const ALONE: [AloneRow; 14] = [
    AloneRow {
        words: "-j1",
        alone: true,
    },
    AloneRow {
        words: "-j=1",
        alone: true,
    },
    AloneRow {
        words: "-j 1",
        alone: true,
    },
    AloneRow {
        words: "--schedule=3",
        alone: true,
    },
    AloneRow {
        words: "--schedule 3",
        alone: true,
    },
    AloneRow {
        words: "",
        alone: false,
    },
    AloneRow {
        words: "-j 4",
        alone: false,
    },
    AloneRow {
        words: "-j",
        alone: false,
    },
    AloneRow {
        words: "-j 01",
        alone: false,
    },
    AloneRow {
        words: "1 -j",
        alone: false,
    },
    AloneRow {
        words: "-j 4 1",
        alone: false,
    },
    AloneRow {
        words: "--predefines=a -j -j 1",
        alone: true,
    },
    AloneRow {
        words: "-j12",
        alone: false,
    },
    AloneRow {
        words: "x --scheduled",
        alone: true,
    },
];

#[test]
fn some_words_ask_for_one_thread(rt: HostRuntime) -> Result<(), Fail> {
    for row in ALONE {
        let words = words_of(rt.alloc(), row.words)?;
        assert_eq!(rt; is_alone(&words), row.alone, "{}", row.words);
    }
    Ok(())
}

// Words, and what they ask for: the database or the size of the made tree, the workers, the schedule unless it is 0, the predefines file and each folder; or `usage`.
#[derive(Clone, Copy)]
struct WordsRow {
    words: &'static str,
    asked: &'static str,
}

const WORDS: [WordsRow; 29] = [
    WordsRow {
        words: "--compilation-database=/p/./db.json",
        asked: "/p/db.json 4",
    },
    WordsRow {
        words: "--compilation-database db.json -j 1",
        asked: "db.json 1",
    },
    WordsRow {
        words: "-j64 --compilation-database=d --predefines=./a.h --system-dirs=/s::x/./y:",
        asked: "d 64 P:a.h S:/s S:x/y",
    },
    WordsRow {
        words: "--compilation-database=d -j=8 --format p1689",
        asked: "d 8",
    },
    WordsRow {
        words: "--compilation-database=d -j +08 --system-dirs=:",
        asked: "d 8",
    },
    WordsRow {
        words: "--compilation-database=",
        asked: ". 4",
    },
    WordsRow {
        words: "--compilation-database=d -j 0",
        asked: "usage",
    },
    WordsRow {
        words: "--compilation-database=d -j 65",
        asked: "usage",
    },
    WordsRow {
        words: "--compilation-database=d -j one",
        asked: "usage",
    },
    WordsRow {
        words: "--compilation-database=d -j",
        asked: "usage",
    },
    WordsRow {
        words: "-j 1",
        asked: "usage",
    },
    WordsRow {
        words: "",
        asked: "usage",
    },
    WordsRow {
        words: "--compilation-database=d --format=make",
        asked: "usage",
    },
    WordsRow {
        words: "--compilation-database=d --help",
        asked: "usage",
    },
    WordsRow {
        words: "--compilation-database=d -V",
        asked: "usage",
    },
    WordsRow {
        words: "--compilation-database=d more",
        asked: "usage",
    },
    WordsRow {
        words: "--compilation-database=d --compilation-database=e",
        asked: "usage",
    },
    WordsRow {
        words: "--compilation-database",
        asked: "usage",
    },
    WordsRow {
        words: "--compilation-database=d --schedule=7",
        asked: "d 4 N:7",
    },
    WordsRow {
        words: "--schedule +2147483647 --compilation-database=d -j 3",
        asked: "d 3 N:2147483647",
    },
    WordsRow {
        words: "--compilation-database=d --schedule=2147483648",
        asked: "usage",
    },
    WordsRow {
        words: "--compilation-database=d --schedule=-1",
        asked: "usage",
    },
    WordsRow {
        words: "--compilation-database=d --schedule",
        asked: "usage",
    },
    WordsRow {
        words: "--compilation-databas=d",
        asked: "usage",
    },
    WordsRow {
        words: "--made=2 -j 1",
        asked: "made 2 1",
    },
    WordsRow {
        words: "--made +4096",
        asked: "made 4096 4",
    },
    WordsRow {
        words: "--made=0",
        asked: "usage",
    },
    WordsRow {
        words: "--made=4097",
        asked: "usage",
    },
    WordsRow {
        words: "--made=1 --compilation-database=d",
        asked: "usage",
    },
];

fn shown_input(alloc: Global, input: &Input) -> Result<Vec<u8>, NoMemory> {
    match input {
        Input::Database(path) => Ok(Vec::from_slice(alloc, path.as_slice())?),
        Input::Made(units) => {
            let mut shown = Vec::from_slice(alloc, b"made ")?;
            shown.extend_from_slice(units.to_string(alloc)?.as_bytes())?;
            Ok(shown)
        }
    }
}

fn shown(alloc: Global, words: &Vec<String>) -> Result<Vec<u8>, NoMemory> {
    let words = match read(alloc, words)? {
        Ok(words) => words,
        Err(Usage) => return Ok(Vec::from_slice(alloc, b"usage")?),
    };
    let mut shown = shown_input(alloc, &words.input)?;
    shown.push(b' ')?;
    shown.extend_from_slice(words.workers.to_string(alloc)?.as_bytes())?;
    if words.schedule > 0 {
        shown.extend_from_slice(b" N:")?;
        shown.extend_from_slice(words.schedule.to_string(alloc)?.as_bytes())?;
    }
    if let Some(path) = &words.settings.predefines {
        shown.extend_from_slice(b" P:")?;
        shown.extend_from_slice(path.as_slice())?;
    }
    for folder in words.settings.program.as_slice() {
        shown.extend_from_slice(b" S:")?;
        shown.extend_from_slice(folder.as_slice())?;
    }
    Ok(shown)
}

#[test]
fn words_ask_for_what_they_should(rt: HostRuntime) -> Result<(), Fail> {
    for row in WORDS {
        let words = words_of(rt.alloc(), row.words)?;
        let asked = shown(rt.alloc(), &words)?;
        assert_eq!(rt; asked.as_slice(), row.asked.as_bytes(), "{}", row.words);
    }
    Ok(())
}
