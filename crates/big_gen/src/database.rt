ghost use Rattle.std.specs.Prelude.{◌≡◌, ◌≤◌, ◌-◌, ◌++◌, IfOk, OnOk, map};
ghost use Rattle.std.specs.List.{range_with_len, concat};
ghost use Rattle.big_gen.specs.MadeTexts.{made_database, entry_text, entry_line, file_text, words_text};

use scan_model::{Bytes, NoMemory};
use std::alloc::Global;

// The database with an entry for each unit, in order, one a line.
pub(crate) fn database(alloc: Global, n: u32) -> Result<Bytes, NoMemory>
    requires units { (1 ≤ n) × (n ≤ 4096) }
    ensures { IfOk result (λ text. text ≡ made_database n) }
{
    let mut text = Vec::from_slice(alloc, b"[\n")?;
    push_entry(alloc, &mut text, 1)?;
    push_more(alloc, &mut text, n)?;
    text.extend_from_slice(b"\n]\n")?;
    Ok(Bytes::of_vec(text))
}

// The entries after the first.
fn push_more(alloc: Global, text: &mut Vec<u8>, n: u32) -> Result<(), NoMemory>
    requires units { (1 ≤ n) × (n ≤ 4096) }
    ensures { OnOk result (text.new.items ≡ text.old.items ++ concat (map entry_line (range_with_len 2 (n - 1)))) }
{
    for unit in 2..n + 1 {
        text.extend_from_slice(b",\n")?;
        push_entry(alloc, text, unit)?;
    }
    Ok(())
}

fn push_entry(alloc: Global, text: &mut Vec<u8>, unit: u32) -> Result<(), NoMemory>
    ensures { OnOk result (text.new.items ≡ text.old.items ++ entry_text unit) }
{
    push_file(alloc, text, unit)?;
    push_words(alloc, text, unit)
}

fn push_file(alloc: Global, text: &mut Vec<u8>, unit: u32) -> Result<(), NoMemory>
    ensures { OnOk result (text.new.items ≡ text.old.items ++ file_text unit) }
{
    let file = format!(in alloc; "{{\"directory\":\"/m\",\"file\":\"u{unit}.cppm\",")?;
    Ok(text.extend_from_slice(file.as_bytes())?)
}

fn push_words(alloc: Global, text: &mut Vec<u8>, unit: u32) -> Result<(), NoMemory>
    ensures { OnOk result (text.new.items ≡ text.old.items ++ words_text unit) }
{
    let words = format!(in alloc; "\"arguments\":[\"c++\",\"-c\",\"u{unit}.cppm\"]}}")?;
    Ok(text.extend_from_slice(words.as_bytes())?)
}
