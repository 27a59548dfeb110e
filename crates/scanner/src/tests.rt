ghost use Rattle.std.specs.Prelude.{◌≡◌, [], All, IfOk, vec_len};
ghost use Rattle.shard_cache.specs.StoreMap.{IsUntouched};

mod inputs;
mod limits;
mod threads;
mod units;

use self::inputs::{
    B_REQUIRES_B, BOTH_REQUIRE_NONE, C_REQUIRES_C, NO_RULES, ONE_M, ONE_U, PARTITION_P_OF_M,
    PROVIDES_M, REFUSED, SECOND_IS_BAD, THREE, TWO, U_REQUIRES_A, U_REQUIRES_M_AND_N,
    U_REQUIRES_V_W_AND_K, USAGE, USUAL_DATABASE, USUAL_DOCUMENT, USUAL_FILES, USUAL_WORDS,
    WITH_FOLDER,
};
use crate::{Outside, scan_alone};
use file_source::{MemorySink, MemorySource, Scripted, ScriptedOutcome, Sink, Source};
use path_search::normal;
use scan_model::{Bytes, Items};
use shard_cache::Store;
use std::alloc::Global;
use std::process::Abort;
use std::test::Fail;

// One run: the program's words after its name, which blanks part, the database's file and the others, and what the run
// leaves, with the number of paths that it asked for.
#[derive(Clone, Copy)]
struct Case {
    words: &'static str,
    database: &'static str,
    files: &'static str,
    status: u8,
    out: &'static str,
    err: &'static str,
    paths: u64,
}

const WORDS: &str = "--compilation-database=/p/db.json -j 1";

// A header that is absent when it is asked for first, and there when it would be asked for again.
const COMES_LATER: Case = Case {
    words: WORDS,
    database: TWO,
    files: "/p/a.cpp
#if __has_include(\"x.h\")
import x;
#else
import none;
#endif
~/p/b.cpp
#if __has_include(\"x.h\")
import x;
#else
import none;
#endif
~/p/x.h comes",
    status: 0,
    out: BOTH_REQUIRE_NONE,
    err: "",
    paths: 3,
};

// A header whose read fails, which two of three commands include.
const FAILS_FOR_TWO: Case = Case {
    words: WORDS,
    database: THREE,
    files: "/p/a.cpp\n#include \"s.h\"\n~/p/b.cpp\n#include \"s.h\"\n~/p/c.cpp\nimport c;\n~/p/s.h fails",
    status: 1,
    out: C_REQUIRES_C,
    err: "command 1: /p/a.cpp:1: ReadFault\ncommand 2: /p/b.cpp:1: ReadFault\n",
    paths: 4,
};

// A usual database.
const USUAL: Case = Case {
    words: USUAL_WORDS,
    database: USUAL_DATABASE,
    files: USUAL_FILES,
    status: 0,
    out: USUAL_DOCUMENT,
    err: "",
    paths: 8,
};

const SCANS: [Case; 17] = [
    Case {
        words: WORDS,
        database: "/p/db.json\n[]",
        files: "",
        status: 0,
        out: NO_RULES,
        err: "",
        paths: 0,
    },
    Case {
        words: WORDS,
        database: ONE_M,
        files: "/p/m.cppm\nexport module M;",
        status: 0,
        out: PROVIDES_M,
        err: "",
        paths: 1,
    },
    Case {
        words: WORDS,
        database: ONE_U,
        files: "/p/u.cpp\nmodule M;\nimport N;\nimport N;\n",
        status: 0,
        out: U_REQUIRES_M_AND_N,
        err: "",
        paths: 1,
    },
    Case {
        words: WORDS,
        database: ONE_U,
        files: "/p/u.cpp\nmodule M:P;\nimport :Q;\n",
        status: 0,
        out: PARTITION_P_OF_M,
        err: "",
        paths: 1,
    },
    Case {
        words: WORDS,
        database: ONE_U,
        files: "/p/u.cpp\n\nimport :P;\nmodule M;\n",
        status: 1,
        out: NO_RULES,
        err: "command 1: /p/u.cpp:2: PartitionOutsideModule\n",
        paths: 1,
    },
    Case {
        words: WORDS,
        database: TWO,
        files: "/p/a.cpp\nimport <vector>;~/p/b.cpp\nimport b;",
        status: 1,
        out: B_REQUIRES_B,
        err: "command 1: /p/a.cpp:1: HeaderUnit\n",
        paths: 2,
    },
    Case {
        words: WORDS,
        database: ONE_U,
        files: "/p/u.cpp\nauto s = R\"x(\n#define import x\n)x\";\nimport a;\n",
        status: 0,
        out: U_REQUIRES_A,
        err: "",
        paths: 1,
    },
    Case {
        words: WORDS,
        database: ONE_U,
        files: "/p/u.cpp\nFOOR\"(\"\nimport a;\nx = \")\";\n",
        status: 0,
        out: U_REQUIRES_A,
        err: "",
        paths: 1,
    },
    Case {
        words: WORDS,
        database: ONE_U,
        files: "/p/u.cpp\nimport a\n",
        status: 1,
        out: NO_RULES,
        err: "command 1: /p/u.cpp:1: BadModuleLine\n",
        paths: 1,
    },
    Case {
        words: WORDS,
        database: ONE_U,
        files: "/p/u.cpp\n\nmodule A;\nmodule B;\n",
        status: 1,
        out: NO_RULES,
        err: "command 1: /p/u.cpp:3: SecondModule\n",
        paths: 1,
    },
    Case {
        words: WORDS,
        database: ONE_U,
        files: "",
        status: 1,
        out: NO_RULES,
        err: "command 1: /p/u.cpp:0: MainMissing\n",
        paths: 1,
    },
    Case {
        words: WORDS,
        database: ONE_U,
        files: "/p/u.cpp fails",
        status: 1,
        out: NO_RULES,
        err: "command 1: /p/u.cpp:0: ReadFault\n",
        paths: 1,
    },
    COMES_LATER,
    FAILS_FOR_TWO,
    USUAL,
    Case {
        words: WORDS,
        database: REFUSED,
        files: "",
        status: 1,
        out: NO_RULES,
        err: "command 1: BadCommand\ncommand 2: UnsupportedOption\ncommand 3: BadCommand\n",
        paths: 0,
    },
    Case {
        words: WORDS,
        database: WITH_FOLDER,
        files: "/p/u.cpp
#define H <v.h>
#include H
#include \"v.h\"
#include \"k.h\"
~/p/inc/v.h
import v;
~/p/v.h
import w;
~/p/inc/k.h
import v;
import k;
",
        status: 0,
        out: U_REQUIRES_V_W_AND_K,
        err: "",
        paths: 5,
    },
];

// A run over a made tree: its words and its summary.
#[derive(Clone, Copy)]
struct Made {
    words: &'static str,
    out: &'static str,
}

const MADE: [Made; 5] = [
    Made {
        words: "--made=1 -j 1",
        out: "commands 1\nrecords 1\nfaults 0\npaths 5\n",
    },
    Made {
        words: "--made=2 -j 1",
        out: "commands 2\nrecords 2\nfaults 0\npaths 9\n",
    },
    Made {
        words: "--made=64 -j 1",
        out: "commands 64\nrecords 64\nfaults 0\npaths 128\n",
    },
    Made {
        words: "--made=64 -j 8",
        out: "commands 64\nrecords 64\nfaults 0\npaths 128\n",
    },
    Made {
        words: "--made=4096 -j 1",
        out: "commands 4096\nrecords 4096\nfaults 0\npaths 4160\n",
    },
];

// A run that is refused: its words, its database and its status with its line.
#[derive(Clone, Copy)]
struct Refused {
    words: &'static str,
    database: &'static str,
    status: u8,
    err: &'static str,
}

const REFUSALS: [Refused; 13] = [
    Refused {
        words: "--compilation-database=/p/db.json -j 0",
        database: ONE_U,
        status: 2,
        err: USAGE,
    },
    Refused {
        words: "--compilation-database=/p/db.json -j 65",
        database: ONE_U,
        status: 2,
        err: USAGE,
    },
    Refused {
        words: "-j 1",
        database: ONE_U,
        status: 2,
        err: USAGE,
    },
    Refused {
        words: "--compilation-database=/p/db.json --nothing",
        database: ONE_U,
        status: 2,
        err: USAGE,
    },
    Refused {
        words: WORDS,
        database: "",
        status: 3,
        err: "database unread: Absent\n",
    },
    Refused {
        words: WORDS,
        database: "/p/db.json fails",
        status: 3,
        err: "database unread: Failed\n",
    },
    Refused {
        words: WORDS,
        database: "/p/db.json\n[{\"directory\":\"/p\"",
        status: 4,
        err: "bad database: not JSON\n",
    },
    Refused {
        words: WORDS,
        database: "/p/db.json\n{}",
        status: 4,
        err: "bad database: not an array\n",
    },
    Refused {
        words: WORDS,
        database: SECOND_IS_BAD,
        status: 4,
        err: "bad database: entry 2\n",
    },
    Refused {
        words: "--compilation-database /p/db.json --format=make",
        database: ONE_U,
        status: 2,
        err: USAGE,
    },
    Refused {
        words: "--made=0",
        database: ONE_U,
        status: 2,
        err: USAGE,
    },
    Refused {
        words: "--made=4097",
        database: ONE_U,
        status: 2,
        err: USAGE,
    },
    Refused {
        words: "--made=1 --compilation-database=/p/db.json",
        database: ONE_U,
        status: 2,
        err: USAGE,
    },
];

// ## How a case is run

// The program's name and these words.
fn words_of(alloc: Global, text: &str) -> Result<Vec<String>, Fail> {
    let mut words = Vec::new(alloc);
    words.push(String::from_str(alloc, "scan_deps")?)?;
    for word in text.split(' ') {
        words.push(String::from_str(alloc, word)?)?;
    }
    Ok(words)
}

fn outcomes_of(alloc: Global, kind: &str, text: &str) -> Result<Items<ScriptedOutcome>, Fail> {
    let text = ScriptedOutcome::Bytes(Bytes::copy(alloc, text.as_bytes())?);
    let outcomes = match kind {
        "fails" => vec![in alloc; ScriptedOutcome::Failed]?,
        "comes" => vec![in alloc; ScriptedOutcome::Absent, text]?,
        _ => vec![in alloc; text]?,
    };
    Ok(Items::of_vec(outcomes))
}

fn scripted(alloc: Global, file: &str) -> Result<Scripted, Fail> {
    let (head, text) = file.split_once('\n').unwrap_or((file, ""));
    let (path, kind) = head.split_once(' ').unwrap_or((head, ""));
    Ok(Scripted {
        path: normal(alloc, path.as_bytes())?,
        outcomes: outcomes_of(alloc, kind, text)?,
    })
}

fn script(alloc: Global, files: &str) -> Result<Items<Scripted>, Fail> {
    let mut script = Vec::new(alloc);
    for file in files.split('~') {
        if !file.is_empty() {
            script.push(scripted(alloc, file)?)?;
        }
    }
    Ok(Items::of_vec(script))
}

fn sources(alloc: Global, files: &str) -> Result<Vec<MemorySource>, Fail>
    ensures sixteen { IfOk result (λ sources. vec_len sources ≡ 16) }
    ensures fresh { IfOk result (λ sources. All (λ source. ⟦<MemorySource as Source>⟧.asked source ≡ []) sources.items) }
{
    let mut sources = Vec::new(alloc);
    'shards: while sources.len() < 16 {
        sources.push(MemorySource::new(alloc, script(alloc, files)?)?)?;
    }
    Ok(sources)
}

fn outside(
    alloc: Global,
    database: Items<Scripted>,
    files: &str,
) -> Result<Outside<MemorySource>, Fail>
    ensures fresh_db { IfOk result (λ outside. ⟦<MemorySource as Source>⟧.asked outside.db ≡ []) }
    ensures fresh_store { IfOk result (λ outside. IsUntouched outside.store) }
{
    let db = MemorySource::new(alloc, database)?;
    match Store::new(alloc, sources(alloc, files)?) {
        Ok(store) => Ok(Outside { db, store }),
        Err(_) => Err(Fail::from("memory")),
    }
}

fn is_as_said(rt: &impl Abort, alloc: Global, case: &Case) -> Result<(), Fail> {
    is_as_said_by(rt, alloc, case.words, case)
}

// The same with other words.
fn is_as_said_by(rt: &impl Abort, alloc: Global, words: &str, case: &Case) -> Result<(), Fail> {
    let words = words_of(alloc, words)?;
    assert!(rt; words.iter().all(|word| word.len() <= 33_554_432));
    let outside = outside(alloc, script(alloc, case.database)?, case.files)?;
    let mut out = MemorySink::new(alloc, 16_777_216, Items::new(alloc))?;
    let mut err = MemorySink::new(alloc, 16_777_216, Items::new(alloc))?;
    let ended = scan_alone(alloc, &words, outside, &mut out, &mut err);
    assert_eq!(rt; err.bytes(), case.err.as_bytes());
    assert_eq!(rt; out.bytes(), case.out.as_bytes());
    assert_eq!(rt; ended.status, case.status);
    assert_eq!(rt; ended.outside.store.paths(), case.paths);
    Ok(())
}

#[test]
fn scans(rt: HostRuntime) -> Result<(), Fail> {
    for case in SCANS {
        is_as_said(&rt, rt.alloc(), &case)?;
    }
    Ok(())
}

// Nothing outside is asked for.
fn made_case(made: Made) -> Case {
    Case {
        words: made.words,
        database: ONE_U,
        files: "",
        status: 0,
        out: made.out,
        err: "",
        paths: 0,
    }
}

#[test]
fn made_trees(rt: HostRuntime) -> Result<(), Fail> {
    for made in MADE {
        is_as_said(&rt, rt.alloc(), &made_case(made))?;
    }
    Ok(())
}

#[test]
fn schedules(rt: HostRuntime) -> Result<(), Fail> {
    let alloc = rt.alloc();
    for case in [COMES_LATER, FAILS_FOR_TWO] {
        let words = "--compilation-database=/p/db.json -j 3 --schedule=5";
        is_as_said_by(&rt, alloc, words, &case)?;
    }
    for workers in [1u32, 2, 4, 64] {
        for number in 0..100u32 {
            let words = format!(in alloc;
                "--compilation-database=/p/build/compile_commands.json --predefines=/p/predef.h -j {workers} --schedule={number}"
            )?;
            is_as_said_by(&rt, alloc, words.as_str(), &USUAL)?;
        }
    }
    Ok(())
}

#[test]
fn refusals(rt: HostRuntime) -> Result<(), Fail> {
    for refused in REFUSALS {
        let case = Case {
            words: refused.words,
            database: refused.database,
            files: "",
            status: refused.status,
            out: "",
            err: refused.err,
            paths: 0,
        };
        is_as_said(&rt, rt.alloc(), &case)?;
    }
    Ok(())
}

// ## Sinks that fail

// The put of each sink that fails, or 0, and what comes of it.
#[derive(Clone, Copy)]
struct Failing {
    database: &'static str,
    files: &'static str,
    out_failing: u32,
    err_failing: u32,
    status: u8,
    out: &'static str,
    err: &'static str,
}

const FAILING: [Failing; 4] = [
    // The output's only put fails after half of the document, and no line is put.
    Failing {
        database: ONE_U,
        files: "/p/u.cpp\nimport a",
        out_failing: 1,
        err_failing: 0,
        status: 6,
        out: "{\n  \"revision\": 0,\n  \"rul",
        err: "",
    },
    // The error output's only put fails after half of the line.
    Failing {
        database: ONE_U,
        files: "/p/u.cpp\nimport a",
        out_failing: 0,
        err_failing: 1,
        status: 6,
        out: NO_RULES,
        err: "command 1: /p/u.cp",
    },
    // Nothing is put to the error output where every command has its record.
    Failing {
        database: ONE_M,
        files: "/p/m.cppm\nexport module M;",
        out_failing: 0,
        err_failing: 1,
        status: 0,
        out: PROVIDES_M,
        err: "",
    },
    // A refusal keeps its status.
    Failing {
        database: "/p/db.json\n{}",
        files: "",
        out_failing: 1,
        err_failing: 1,
        status: 4,
        out: "",
        err: "bad database:",
    },
];

fn sink(alloc: Global, failing: u32) -> Result<MemorySink, Fail>
    ensures { IfOk result (λ sink. ⟦<MemorySink as Sink>⟧.faults sink ≡ 0) }
{
    Ok(MemorySink::new(alloc, 65_536, Items::of_vec(vec![in alloc; failing]?))?)
}

#[test]
fn sinks_that_fail(rt: HostRuntime) -> Result<(), Fail> {
    let alloc = rt.alloc();
    for case in FAILING {
        let words = words_of(alloc, WORDS)?;
        assert!(rt; words.iter().all(|word| word.len() <= 33_554_432));
        let outside = outside(alloc, script(alloc, case.database)?, case.files)?;
        let mut out = sink(alloc, case.out_failing)?;
        let mut err = sink(alloc, case.err_failing)?;
        let ended = scan_alone(alloc, &words, outside, &mut out, &mut err);
        assert_eq!(rt; err.bytes(), case.err.as_bytes());
        assert_eq!(rt; out.bytes(), case.out.as_bytes());
        assert_eq!(rt; ended.status, case.status);
    }
    Ok(())
}

// ## Large databases, and such as aren't texts

// A run over this database and no other file.
fn ends_so(
    rt: &impl Abort,
    alloc: Global,
    database: Vec<u8>,
    status: u8,
    err_text: &[u8],
) -> Result<(), Fail> {
    let words = words_of(alloc, WORDS)?;
    assert!(rt; words.iter().all(|word| word.len() <= 33_554_432));
    let text = ScriptedOutcome::Bytes(Bytes::of_vec(database));
    let file = Scripted {
        path: normal(alloc, b"/p/db.json")?,
        outcomes: Items::of_vec(vec![in alloc; text]?),
    };
    let outside = outside(alloc, Items::of_vec(vec![in alloc; file]?), "")?;
    let mut out = MemorySink::new(alloc, 65_536, Items::new(alloc))?;
    let mut err = MemorySink::new(alloc, 16_777_216, Items::new(alloc))?;
    let ended = scan_alone(alloc, &words, outside, &mut out, &mut err);
    assert_eq!(rt; ended.status, status);
    assert!(rt; err.bytes() == err_text);
    Ok(())
}

// So many entries of empty texts.
fn entries(alloc: Global, count: u32) -> Result<Vec<u8>, Fail> {
    let mut text = Vec::new(alloc);
    let mut before: &[u8] = b"[";
    for _ in 0..count {
        text.extend_from_slice(before)?;
        text.extend_from_slice(br#"{"arguments":[],"directory":"","file":""}"#)?;
        before = b",";
    }
    text.push(b']')?;
    Ok(text)
}

#[test]
fn as_many_commands_as_a_database_may_have(rt: HostRuntime) -> Result<(), Fail> {
    let alloc = rt.alloc();
    let too_many = entries(alloc, 131_073)?;
    assert_eq!(rt; too_many.len(), 5_505_067);
    ends_so(&rt, alloc, too_many, 5, b"too many commands\n")?;
    let mut lines = Vec::new(alloc);
    for number in 1..131_073u32 {
        let line = format!(in alloc; "command {number}: .:0: MainMissing\n")?;
        lines.extend_from_slice(line.as_bytes())?;
    }
    ends_so(&rt, alloc, entries(alloc, 131_072)?, 1, &lines)
}

// A database whose one command is one word of so many letters, which make all but 48 of its bytes.
fn one_word(alloc: Global, letters: u32) -> Result<Vec<u8>, Fail> {
    let mut text = Vec::new(alloc);
    text.extend_from_slice(br#"[{"directory":"/p","file":"u.cpp","command":""#)?;
    for _ in 0..letters {
        text.push(b'x')?;
    }
    text.extend_from_slice(b"\"}]")?;
    Ok(text)
}

#[test]
fn a_word_as_long_as_a_file_may_be(rt: HostRuntime) -> Result<(), Fail> {
    let alloc = rt.alloc();
    let whole = one_word(alloc, 33_554_384)?;
    assert_eq!(rt; whole.len(), 33_554_432);
    let missing = b"command 1: /p/u.cpp:0: MainMissing\n";
    ends_so(&rt, alloc, whole, 1, missing)?;
    let big = one_word(alloc, 33_554_385)?;
    ends_so(&rt, alloc, big, 3, b"database unread: Big\n")
}

#[test]
fn databases_that_are_no_json(rt: HostRuntime) -> Result<(), Fail> {
    let alloc = rt.alloc();
    let mut nested = Vec::new(alloc);
    for _ in 0..10_000 {
        nested.push(b'[')?;
    }
    for _ in 0..10_000 {
        nested.push(b']')?;
    }
    ends_so(&rt, alloc, nested, 4, b"bad database: not JSON\n")?;
    let mut not_utf8 = Vec::new(alloc);
    not_utf8.extend_from_slice(br#"[{"directory":"/p","file":"u.cpp","arguments":["c++","-Dx="#)?;
    not_utf8.push(255)?;
    not_utf8.extend_from_slice(b"\"]}]")?;
    ends_so(&rt, alloc, not_utf8, 4, b"bad database: not JSON\n")
}
