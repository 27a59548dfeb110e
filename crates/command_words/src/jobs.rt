ghost use Rattle.std.specs.Prelude.{◌≡◌, Ok, IfOk, IsUtf8, drop, unwrap_or};
ghost use Rattle.scan_model.specs.Paths.{normal};
ghost use Rattle.command_words.specs.Commands.{object_of};
ghost use Rattle.command_words.specs.Splitting.{split};
ghost use Rattle.command_words.specs.Jobs.{output_of, command_by, job_of_words, job_of};
ghost use Rattle.scan_model.specs.Fits.{JobFits};

use crate::bad_command::BadCommand;
use crate::object_name::object_name;
use crate::reading::{Reading, read_words};
use crate::splitting::split;
use compile_db::{Entry, EntryWords};
use path_search::{join, normal};
use scan_model::{Command, CommandFault, Job, NoMemory, PathText, Text};
use std::alloc::Global;

// These bytes as a text of their own.
fn text_of(alloc: Global, bytes: &[u8]) -> Result<Text, NoMemory>
    requires { IsUtf8 bytes.now }
    ensures { IfOk result (λ text. text ≡ bytes.now) }
{
    match str::from_utf8(bytes) {
        Ok(text) => Text::copy(alloc, text),
        Err(_) => unreachable!(),
    }
}

fn last_or_object(alloc: Global, last: Option<Text>, file: &str) -> Result<Text, NoMemory>
    ensures { IfOk result (λ output. output ≡ unwrap_or last (object_of file.now)) }
{
    match last {
        Some(last) => Ok(last),
        None => object_name(alloc, file),
    }
}

// What the command makes: what the entry says, or else the last `-o`, or else the file's object.
fn output_of(alloc: Global, entry: &Entry, last: Option<Text>) -> Result<Text, NoMemory>
    ensures { IfOk result (λ output. output ≡ output_of entry.now last) }
{
    match &entry.output {
        Some(output) => Text::copy(alloc, output.as_str()),
        None => last_or_object(alloc, last, entry.file.as_str()),
    }
}

// The command of an entry, in its directory, by what its words say.
fn command_by(
    alloc: Global,
    entry: &Entry,
    directory: PathText,
    reading: Reading,
) -> Result<Command, NoMemory>
    requires here { directory ≡ normal entry.now.directory }
    requires utf8 { IsUtf8 directory }
    ensures { IfOk result (λ command. command ≡ command_by entry.now reading) }
{
    let main = join(alloc, &directory, entry.file.as_slice())?;
    let source = text_of(alloc, main.as_slice())?;
    let output = output_of(alloc, entry, reading.output)?;
    Ok(Command {
        directory,
        main,
        source,
        output,
        settings: reading.settings,
        forced: reading.forced,
        search: reading.search,
        dialect: reading.dialect,
    })
}

fn after_first(words: &[Text]) -> &[Text]
    ensures { result.now ≡ drop 1 words.now }
{
    if words.is_empty() { words } else { &words[1..] }
}

fn job_of_words(alloc: Global, entry: &Entry, words: &[Text]) -> Result<Job, NoMemory>
    ensures { IfOk result (λ job. job ≡ job_of_words entry.now (Ok words.now)) }
{
    let directory = normal(alloc, entry.directory.as_slice())?;
    match read_words(alloc, &directory, after_first(words))? {
        Ok(reading) => Ok(Job::Run(command_by(alloc, entry, directory, reading)?)),
        Err(fault) => Ok(Job::Refused(fault)),
    }
}

fn job_of_text(alloc: Global, entry: &Entry, text: &[u8]) -> Result<Job, NoMemory>
    requires { IsUtf8 text.now }
    ensures { IfOk result (λ job. job ≡ job_of_words entry.now (split text.now)) }
{
    match split(alloc, text)? {
        Ok(words) => job_of_words(alloc, entry, words.as_slice()),
        Err(BadCommand) => Ok(Job::Refused(CommandFault::BadCommand)),
    }
}

#[tactic(auto, unfolding(crate::specs::Jobs::job_of))]
fn job_of(alloc: Global, entry: &Entry) -> Result<Job, NoMemory>
    ensures { IfOk result (λ job. job ≡ job_of entry.now) }
{
    match &entry.words {
        EntryWords::Arguments(words) => job_of_words(alloc, entry, words.as_slice()),
        EntryWords::Command(text) => job_of_text(alloc, entry, text.as_slice()),
    }
}

/// The command of an entry, or why it is refused. `Err` is want of memory alone.
///
/// The first word is the compiler. The others are read from the left, and the first fault is the command's:
/// `BadCommand` where a word lacks the next one, which it takes, where the text of a `-D` or a `-U` has a newline or more
/// than 33,554,400 bytes, or where there would be more than 33,554,432 settings, forced files and folders;
/// `UnsupportedOption` at a word that begins with `-imacros`. A `command` text that can't be split is `BadCommand` before
/// any word is read.
///
/// Folders are below the entry's directory. Of several `-o` or `-std=` the last one counts; the output is the entry's
/// own, where it has one, and else the file's last segment with `.o` for what follows its last `.`, where no `-o` stands.
pub fn job(alloc: Global, entry: &Entry) -> Result<Job, NoMemory>
    ensures reads { IfOk result (λ job. job ≡ job_of entry.now) }
    ensures fits { IfOk result (λ job. JobFits job) }
{
    job_of(alloc, entry)
}
