use crate::{DbFault, EntryWords, read};
use std::alloc::{AllocError, Global};
use std::test::Fail;

// Each word after a comma, or the command line after a colon.
fn put_words(shown: &mut String, words: &EntryWords) -> Result<(), AllocError> {
    match words {
        EntryWords::Command(line) => {
            shown.push_str(":")?;
            shown.push_str(line.as_str())?;
        }
        EntryWords::Arguments(words) => {
            for word in words.as_slice() {
                shown.push_str(",")?;
                shown.push_str(word.as_str())?;
            }
        }
    }
    Ok(())
}

// What is read: the fault, or each entry as `directory file`, its words and `>output`, between brackets.
fn shown(alloc: Global, database: &[u8]) -> Result<String, Fail> {
    let entries = match read(alloc, database).ok().ok_or("memory")? {
        Ok(entries) => entries,
        Err(fault) => return Ok(format!(in alloc; "{fault:?}")?),
    };
    let mut shown = String::new(alloc);
    for entry in entries.as_slice() {
        shown.push_str("(")?;
        shown.push_str(entry.directory.as_str())?;
        shown.push_str(" ")?;
        shown.push_str(entry.file.as_str())?;
        put_words(&mut shown, &entry.words)?;
        if let Some(output) = &entry.output {
            shown.push_str(">")?;
            shown.push_str(output.as_str())?;
        }
        shown.push_str(")")?;
    }
    Ok(shown)
}

#[test]
fn databases_say_what_they_should(rt: HostRuntime) -> Result<(), Fail> {
    let rows = [
        ("".as_bytes(), "NotJson"),
        ("[]".as_bytes(), ""),
        ("{}".as_bytes(), "NotArray"),
        (
            "[{\"directory\":\"/b\",\"file\":\"a\",\"arguments\":[\"c++\",\"-c\"],\"command\":7,\"output\":\"a.o\"}]".as_bytes(),
            "(/b a,c++,-c>a.o)",
        ),
        (
            "[{\"directory\":\"\\u002fb\",\"file\":\"\\\"é\",\"command\":\"c++ -c\"},{\"directory\":\"\",\"file\":\"\",\"arguments\":[]}]".as_bytes(),
            "(/b \"é:c++ -c)( )",
        ),
        (
            "[{\"directory\":\"/b\",\"file\":\"a\",\"command\":\"c\",\"output\":null}]".as_bytes(),
            "BadEntry(1)",
        ),
        (
            "[{\"directory\":1,\"file\":\"a\",\"command\":\"c\",\"directory\":\"/b\",\"command\":\"d\"}]".as_bytes(),
            "(/b a:d)",
        ),
        (
            "[{\"directory\":\"/b\",\"file\":\"a\",\"command\":\"c\",\"id\":[123456789012345678901234567890]}]".as_bytes(),
            "(/b a:c)",
        ),
        (
            "[{\"directory\":\"\\ud800\",\"file\":\"a\",\"command\":\"c\"}]".as_bytes(),
            "NotJson",
        ),
        (
            "[{\"directory\":\"/b\",\"file\":\"a\",\"command\":\"c\"},]".as_bytes(),
            "NotJson",
        ),
        (
            b"[{\"directory\":\"/\xff\",\"file\":\"a\",\"command\":\"c\"}]".as_slice(),
            "NotJson",
        ),
        (
            "[{\"directory\":\"/b\",\"file\":\"a\",\"command\":\"c\"},{\"directory\":\"/b\",\"command\":\"c\"}]".as_bytes(),
            "BadEntry(2)",
        ),
        ("[{\"file\":\"a\"},7]".as_bytes(), "BadEntry(1)"),
        (
            "[{\"directory\":\"/b\",\"file\":\"a\",\"arguments\":[\"c\",1],\"command\":\"c\"}]".as_bytes(),
            "BadEntry(1)",
        ),
        (
            "[{\"directory\":\"/b\",\"file\":\"a\",\"arguments\":\"c\",\"command\":\"c\"}]".as_bytes(),
            "BadEntry(1)",
        ),
        (
            "[{\"directory\":\"/b\",\"file\":\"a\",\"command\":7}]".as_bytes(),
            "BadEntry(1)",
        ),
    ];
    for (database, answer) in rows {
        assert_eq!(rt; shown(rt.alloc(), database)?.as_str(), answer, "{answer}");
    }
    Ok(())
}

// 127 arrays may nest.
#[test]
fn deep_nesting_is_no_json(rt: HostRuntime) -> Result<(), Fail> {
    for (depth, answer) in [(127, "BadEntry(1)"), (128, "NotJson"), (200, "NotJson")] {
        let mut nested = vec![in rt.alloc(); b'['; depth]?;
        nested.resize(2 * depth, b']')?;
        assert_eq!(rt;
            shown(rt.alloc(), nested.as_slice())?.as_str(),
            answer,
            "{depth}"
        );
    }
    Ok(())
}
