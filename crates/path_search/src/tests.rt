ghost use Rattle.std.specs.Prelude.{◌<◌, length};
ghost use Rattle.std.specs.Bool.{OnTrue};
ghost use Rattle.scan_model.specs.Candidates.{chain};

use crate::{candidate, folder, join, normal, place};
use scan_model::{Form, Items, NoMemory, PathText, SearchList};
use std::alloc::Global;
use std::test::Fail;

fn normal_is(alloc: Global, text: &[u8], expected: &[u8]) -> Result<bool, NoMemory> {
    Ok(normal(alloc, text)?.copy(alloc)?.as_slice() == expected)
}

fn join_is(alloc: Global, base: &[u8], name: &[u8], expected: &[u8]) -> Result<bool, NoMemory> {
    Ok(join(alloc, &normal(alloc, base)?, name)?.as_slice() == expected)
}

fn folder_is(alloc: Global, path: &[u8], expected: &[u8]) -> Result<bool, NoMemory> {
    Ok(folder(alloc, &normal(alloc, path)?)?.as_slice() == expected)
}

// The expected texts are worked out by hand.
#[test]
fn paths_by_hand(rt: HostRuntime) -> Result<(), Fail> {
    let alloc = rt.alloc();
    let normals: [(&[u8], &[u8]); 18] = [
        (b"", b"."),
        (b"/", b"/"),
        (b"//", b"/"),
        (b".", b"."),
        (b"./", b"."),
        (b"/.", b"/"),
        (b"..", b".."),
        (b"a/..", b"a/.."),
        (b"/..", b"/.."),
        (b"/../x", b"/../x"),
        (b"../x", b"../x"),
        (b"/a//./b/", b"/a/b"),
        (b"a//b/./c/", b"a/b/c"),
        (b"./a/.b/c.", b"a/.b/c."),
        (b"...", b"..."),
        (b"a.//", b"a."),
        (b"\xff/./\xc3", b"\xff/\xc3"),
        (b"/ /\0", b"/ /\0"),
    ];
    for (text, expected) in normals {
        assert!(rt; normal_is(alloc, text, expected)?);
    }
    let joins: [(&[u8], &[u8], &[u8]); 12] = [
        (b"a", b"", b"a"),
        (b"/", b"", b"/"),
        (b".", b"", b"."),
        (b".", b"a", b"a"),
        (b"/", b"a/", b"/a"),
        (b"/p", b"./v.h", b"/p/v.h"),
        (b"p/q", b"../v.h", b"p/q/../v.h"),
        (b"..", b"..", b"../.."),
        (b".", b"./.", b"."),
        (b"/p", b"/q/./r", b"/q/r"),
        (b"p", b"/", b"/"),
        (b".", b"..", b".."),
    ];
    for (base, name, expected) in joins {
        assert!(rt; join_is(alloc, base, name, expected)?);
    }
    let folders: [(&[u8], &[u8]); 8] = [
        (b"/", b"/"),
        (b"/a", b"/"),
        (b"a", b"."),
        (b"a/b", b"a"),
        (b"/a/b.c", b"/a"),
        (b".", b"."),
        (b"..", b"."),
        (b"../x", b".."),
    ];
    for (path, expected) in folders {
        assert!(rt; folder_is(alloc, path, expected)?);
    }
    Ok(())
}

// A list of one folder.
fn one(alloc: Global, path: &[u8]) -> Result<Items<PathText>, Fail> {
    let mut paths = Vec::new(alloc);
    paths.push(normal(alloc, path)?)?;
    Ok(Items::of_vec(paths))
}

// The path of this number is the expected one, or there is none where nothing is expected.
fn candidate_is(
    alloc: Global,
    list: &SearchList,
    form: Form,
    name: &[u8],
    k: u32,
    expected: &[u8],
) -> Result<bool, Fail> {
    let program = one(alloc, b"/s")?;
    let from = normal(alloc, b"/p/a")?;
    match candidate(alloc, list, &program, form, &from, name, k)? {
        None => Ok(expected.is_empty()),
        Some(path) => Ok(path.as_slice() == expected),
    }
}

#[test]
fn candidates_by_hand(rt: HostRuntime) -> Result<(), Fail> {
    let alloc = rt.alloc();
    let short = SearchList {
        quote: one(alloc, b"/p/q")?,
        angled: one(alloc, b"/p/i")?,
        system: Items::new(alloc),
        after: Items::new(alloc),
    };
    let full = SearchList {
        quote: Items::new(alloc),
        angled: one(alloc, b"i")?,
        system: one(alloc, b"y")?,
        after: one(alloc, b"z")?,
    };
    let rows: [(&SearchList, Form, &[u8], u32, &[u8]); 15] = [
        (&short, Form::Quoted, b"v.h", 0, b"/p/a/v.h"),
        (&short, Form::Quoted, b"v.h", 1, b"/p/q/v.h"),
        (&short, Form::Quoted, b"v.h", 2, b"/p/i/v.h"),
        (&short, Form::Quoted, b"v.h", 3, b"/s/v.h"),
        (&short, Form::Quoted, b"v.h", 4, b""),
        (&short, Form::Angled, b"v.h", 0, b"/p/i/v.h"),
        (&short, Form::Angled, b"v.h", 1, b"/s/v.h"),
        (&short, Form::Angled, b"v.h", 2, b""),
        (&short, Form::Quoted, b"/v//h", 0, b"/v/h"),
        (&short, Form::Quoted, b"/v//h", 1, b""),
        (&full, Form::Angled, b"./v.h", 0, b"i/v.h"),
        (&full, Form::Angled, b"./v.h", 1, b"y/v.h"),
        (&full, Form::Angled, b"./v.h", 2, b"/s/v.h"),
        (&full, Form::Angled, b"./v.h", 3, b"z/v.h"),
        (&full, Form::Angled, b"./v.h", 4, b""),
    ];
    for (list, form, name, k, expected) in rows {
        assert!(rt; candidate_is(alloc, list, form, name, k, expected)?);
    }
    Ok(())
}

// The path of this number at which a name is looked for, empty where there is none, and the place that it gives, 0 for
// none.
#[derive(Clone, Copy)]
struct Row {
    form: Form,
    name: &'static [u8],
    k: u32,
    path: &'static [u8],
    place: u32,
}

macro_rules! rows {
    ($($form:expr, $name:literal, $k:literal => $path:literal, $place:literal);* $(;)?) => {
        [$(Row { form: $form, name: $name, k: $k, path: $path, place: $place }),*]
    };
}

const ROWS: [Row; 11] = rows![
    Form::Quoted, b"v.h", 0 => b"/p/a/v.h", 0;
    Form::Quoted, b"v.h", 1 => b"/p/q/v.h", 1;
    Form::Quoted, b"v.h", 3 => b"/s/v.h", 3;
    Form::Angled, b"v.h", 0 => b"/p/i/v.h", 2;
    Form::Angled, b"v.h", 1 => b"/s/v.h", 3;
    Form::Next(0), b"v.h", 0 => b"/p/q/v.h", 1;
    Form::Next(1), b"v.h", 1 => b"/s/v.h", 3;
    Form::Next(2), b"v.h", 0 => b"/s/v.h", 3;
    Form::Next(2), b"v.h", 1 => b"", 0;
    Form::Next(3), b"v.h", 0 => b"", 0;
    Form::Next(3), b"/v//h", 0 => b"/v/h", 0;
];

fn are_few(list: &SearchList, program: &Items<PathText>) -> bool
    ensures { OnTrue result (length (chain list.now program.now) < 4294967295) }
{
    list.quote.as_slice().len() <= 9
        && list.angled.as_slice().len() <= 9
        && list.system.as_slice().len() <= 9
        && program.as_slice().len() <= 9
        && list.after.as_slice().len() <= 9
}

fn row_holds(alloc: Global, list: &SearchList, row: Row) -> Result<bool, Fail> {
    let program = one(alloc, b"/s")?;
    let from = normal(alloc, b"/p/a")?;
    let found = candidate(alloc, list, &program, row.form, &from, row.name, row.k)?;
    match found {
        None => Ok(row.path.is_empty()),
        Some(path) => {
            if !are_few(list, &program) {
                return Ok(false);
            }
            let given = place(list, &program, row.form, row.name, row.k);
            Ok(path.as_slice() == row.path && given.unwrap_or(0) == row.place)
        }
    }
}

#[test]
fn candidates_have_places(rt: HostRuntime) -> Result<(), Fail> {
    let alloc = rt.alloc();
    let list = SearchList {
        quote: one(alloc, b"/p/q")?,
        angled: one(alloc, b"/p/i")?,
        system: Items::new(alloc),
        after: Items::new(alloc),
    };
    for row in ROWS {
        assert!(rt; row_holds(alloc, &list, row)?);
    }
    Ok(())
}
