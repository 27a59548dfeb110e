ghost use Rattle.std.specs.Prelude.{◌≡◌, Option, Some, IfOk, option_map};
ghost use Rattle.serde_json.specs.View.{view};
ghost use Rattle.compile_db.specs.Database.{entry_of, entry_with, output_of, words_of};

use crate::members::{take_member, text_of, texts_of};
use scan_model::{Items, NoMemory, Text};
use serde_json::Value;
use std::alloc::Global;

/// What an entry's compiler is called with.
#[derive(Drop)]
pub enum EntryWords {
    /// The words one by one, the program's name first.
    Arguments(Items<Text>),
    /// The command line, which a shell would split into words.
    Command(Text),
}

/// One command of the build.
#[derive(Drop)]
pub struct Entry {
    /// The folder that the command runs in.
    pub directory: Text,
    /// The main source file.
    pub file: Text,
    pub words: EntryWords,
    /// The file that the command makes, where the entry names it.
    pub output: Option<Text>,
}

// The entry that a value is. Its texts are moved out of the value.
pub(crate) fn entry_of(alloc: Global, value: Value) -> Result<Option<Entry>, NoMemory>
    ensures { IfOk result (λ entry. entry ≡ entry_of (view value)) }
{
    let Value::Object(mut members) = value else {
        return Ok(None);
    };
    let directory = take_member(&mut members, "directory").and_then(text_of);
    let file = take_member(&mut members, "file").and_then(text_of);
    let arguments = take_member(&mut members, "arguments");
    let command = take_member(&mut members, "command");
    let output = take_member(&mut members, "output");
    let words = words_of(alloc, arguments, command)?;
    Ok(entry_with(directory, file, words, output_of(output)))
}

fn entry_with(
    directory: Option<Text>,
    file: Option<Text>,
    words: Option<EntryWords>,
    output: Option<Option<Text>>,
) -> Option<Entry>
    ensures { result ≡ entry_with directory file words output }
{
    Some(Entry {
        directory: directory?,
        file: file?,
        words: words?,
        output: output?,
    })
}

// Where there are arguments, the command isn't looked at.
fn words_of(
    alloc: Global,
    arguments: Option<Value>,
    command: Option<Value>,
) -> Result<Option<EntryWords>, NoMemory>
    ensures { IfOk result
        (λ words. words ≡ words_of (option_map view arguments) (option_map view command)) }
{
    match arguments {
        Some(Value::Array(values)) => Ok(texts_of(alloc, values)?.map(EntryWords::Arguments)),
        Some(_) => Ok(None),
        None => Ok(command.and_then(text_of).map(EntryWords::Command)),
    }
}

fn output_of(output: Option<Value>) -> Option<Option<Text>>
    ensures { result ≡ output_of (option_map view output) }
{
    match output {
        Some(value) => text_of(value).map(Some),
        None => Some(None),
    }
}
