ghost use Rattle.scan_model.specs.Fits.{SettingsFit};

use crate::jobs::made_entry;
use crate::{MadeScan, scan_made, scan_made_alone};
use big_gen::make;
use compile_db::{Entry, EntryWords, read};
use scan_model::{Items, Settings, Text, UnitEnd};
use std::alloc::Global;
use std::test::Fail;

// No file of predefines, and no folders.
fn no_settings(alloc: Global) -> Settings
    ensures { SettingsFit result }
{
    Settings {
        predefines: None,
        program: Items::new(alloc),
    }
}

// The first unit looks at `u1.cppm` and the headers 8, 4, 2 and 1, the second one at `u2.cppm` and the headers 15, 7, 3
// and 1.
fn has_two_records_and_nine_paths(scan: &MadeScan) -> bool {
    let ends = scan.ends.as_slice();
    ends.len() == 2 && ends.iter().all(is_record) && scan.paths == 9
}

fn is_record(end: &UnitEnd) -> bool {
    matches!(end, UnitEnd::Record(_))
}

#[test]
fn two_units_have_their_records(rt: HostRuntime) -> Result<(), Fail> {
    let settings = no_settings(rt.alloc());
    let scan = scan_made_alone(rt.alloc(), 2, &settings, 3, 1)
        .ok()
        .ok_or("memory")?;
    assert!(rt; has_two_records_and_nine_paths(&scan));
    Ok(())
}

#[test]
fn so_they_have_on_threads(rt: HostRuntime) -> Result<(), Fail> {
    let settings = no_settings(rt.alloc());
    let scan = scan_made(&rt, rt.alloc(), 2, &settings, 3)
        .ok()
        .ok_or("memory")?;
    assert!(rt; has_two_records_and_nine_paths(&scan));
    Ok(())
}

fn same_words(words: &EntryWords, others: &EntryWords) -> bool {
    let EntryWords::Arguments(words) = words else {
        return false;
    };
    let EntryWords::Arguments(others) = others else {
        return false;
    };
    same_texts(words.as_slice(), others.as_slice())
}

fn same_texts(texts: &[Text], others: &[Text]) -> bool {
    for (text, other) in texts.iter().zip(others) {
        if text.as_str() != other.as_str() {
            return false;
        }
    }
    texts.len() == others.len()
}

fn same_entries(entry: &Entry, other: &Entry) -> bool {
    entry.directory.as_str() == other.directory.as_str()
        && entry.file.as_str() == other.file.as_str()
        && same_words(&entry.words, &other.words)
        && entry.output.is_none()
        && other.output.is_none()
}

#[test]
fn the_database_has_these_entries(rt: HostRuntime) -> Result<(), Fail> {
    let alloc = rt.alloc();
    let tree = make(alloc, 2).ok().ok_or("memory")?;
    let entries = read(alloc, tree.database.as_slice())
        .ok()
        .ok_or("memory")?
        .ok()
        .ok_or("a fault")?;
    let entries = entries.as_slice();
    assert_eq!(rt; entries.len(), 2);
    assert!(rt; same_entries(&entries[0], &made_entry(alloc, 1).ok().ok_or("memory")?));
    assert!(rt; same_entries(&entries[1], &made_entry(alloc, 2).ok().ok_or("memory")?));
    Ok(())
}
