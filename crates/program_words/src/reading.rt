ghost use Rattle.std.specs.Prelude.{◌≡◌, [], length, IfOk, OnOk, option_map};
ghost use Rattle.std.specs.List.{All, slice_split};
ghost use Rattle.clap.specs.Words.{found_of, rows_of, first_of};
ghost use Rattle.clap.specs.Walk.{byte_or_zero};
ghost use Rattle.scan_model.specs.Paths.{normal};
ghost use Rattle.program_words.specs.Words.{IsParse, texts_of, is_known_format, workers_of, units_of, input_of, is_colon, with_part, folders_in, folders_of, settings_of, words_with, by_rows, by_parse, words_of, schedule_of, HasRanges, IsShortWord};
ghost use Rattle.program_words.specs.Numbers.{number_or_zero};
ghost use Rattle.scan_model.specs.Fits.{SettingsFit};

use crate::options::command;
use clap::ArgMatches;
use clap::error::ErrorKind;
use path_search::normal;
use scan_model::{Items, NoMemory, PathText, Settings};
use std::alloc::Global;

/// The words are refused: they aren't those of the program's options, or don't name exactly one of a database and a made
/// tree.
#[derive(Clone, Copy, Debug, PartialEq, Eq)]
pub struct Usage;

/// What is to be scanned.
#[derive(Drop)]
pub enum Input {
    /// The commands of the compilation database with this path.
    Database(PathText),
    /// A made tree of so many units, from 1 to 4096.
    Made(u32),
}

/// What the program's words ask for. Paths are relative to the working folder.
#[derive(Drop)]
pub struct Words {
    pub input: Input,
    /// How many workers there are to be, from 1 to 64.
    pub workers: u32,
    /// With which number the schedule of a run on one thread begins, below 2 ^ 31.
    pub schedule: u32,
    pub settings: Settings,
}

// The matches of the words; None exactly where `clap` finds a fault in them.
fn parsed<'a>(alloc: Global, words: &'a [String]) -> Result<Option<ArgMatches<'a>>, NoMemory>
    ensures { IfOk result (IsParse (texts_of words.entry.now)) }
{
    let command = command(alloc)?;
    match command.try_get_matches_from(words) {
        Ok(matches) => Ok(Some(matches)),
        Err(error) => match error.kind() {
            ErrorKind::OutOfMemory => Err(NoMemory),
            _ => Ok(None),
        },
    }
}

// The value of an option.
fn value<'a>(matches: &ArgMatches<'a>, name: &str) -> Option<&'a str>
    ensures { option_map (λ text. text.now) result ≡ first_of name.now (rows_of (found_of matches.now)) }
{
    matches.get_str(name)
}

fn is_known_format(format: Option<&str>) -> bool
    ensures { result ≡ is_known_format (option_map (λ text. text.now) format.entry) }
{
    match format {
        Some(name) => name == "p1689",
        None => false,
    }
}

fn number_of(text: &str) -> u8
    ensures { result ≡ byte_or_zero text.now }
{
    text.parse::<u8>().unwrap_or(0)
}

fn workers_of(text: Option<&str>) -> u32
    ensures { result ≡ workers_of (option_map (λ text. text.now) text.entry) }
{
    match text {
        Some(text) => u32::from(number_of(text)).min(64).max(1),
        None => 4,
    }
}

fn u32_of(text: &str) -> u32
    ensures { result ≡ number_or_zero text.now }
{
    text.parse::<u32>().unwrap_or(0)
}

fn schedule_of(text: Option<&str>) -> u32
    ensures { result ≡ schedule_of (option_map (λ text. text.now) text.entry) }
{
    match text {
        Some(text) => u32_of(text).min(2147483647),
        None => 0,
    }
}

fn units_of(text: &str) -> u32
    ensures { result ≡ units_of text.now }
{
    u32_of(text).min(4096).max(1)
}

// What is to be scanned, where exactly one of a database and a made tree is named.
fn input_of(
    alloc: Global,
    database: Option<&str>,
    made: Option<&str>,
) -> Result<Option<Input>, NoMemory>
    ensures { IfOk result (λ input. input
        ≡ input_of (option_map (λ text. text.now) database.entry) (option_map (λ text. text.now) made.entry)) }
{
    match (database, made) {
        (Some(path), None) => Ok(Some(Input::Database(normal(alloc, path.as_bytes())?))),
        (None, Some(text)) => Ok(Some(Input::Made(units_of(text)))),
        _ => Ok(None),
    }
}

fn predefines_of(alloc: Global, path: Option<&str>) -> Result<Option<PathText>, NoMemory>
    ensures { IfOk result (λ read. read
        ≡ option_map (λ path. normal path) (option_map (λ text. text.now) path.entry)) }
{
    match path {
        Some(path) => Ok(Some(normal(alloc, path.as_bytes())?)),
        None => Ok(None),
    }
}

// Adds the folder that a part names, unless it is empty.
fn put_part(alloc: Global, folders: &mut Vec<PathText>, part: &[u8]) -> Result<(), NoMemory>
    ensures { OnOk result (folders.new.items ≡ with_part folders.old.items part.now) }
{
    if !part.is_empty() {
        folders.push(normal(alloc, part)?)?;
    }
    Ok(())
}

fn folders_in(alloc: Global, text: &[u8]) -> Result<Items<PathText>, NoMemory>
    ensures { IfOk result (λ folders. folders ≡ folders_in (slice_split is_colon text.now)) }
{
    let mut folders = Vec::new(alloc);
    'parts: for part in text.split(|byte| *byte == b':') {
        put_part(alloc, &mut folders, part)?;
    }
    Ok(Items::of_vec(folders))
}

fn folders_of(alloc: Global, text: Option<&str>) -> Result<Items<PathText>, NoMemory>
    ensures { IfOk result (λ folders. folders ≡ folders_of (option_map (λ text. text.now) text.entry)) }
{
    match text {
        Some(text) => folders_in(alloc, text.as_bytes()),
        None => Ok(Items::new(alloc)),
    }
}

fn settings_of(alloc: Global, matches: &ArgMatches<'_>) -> Result<Settings, NoMemory>
    ensures { IfOk result (λ settings. settings ≡ settings_of (rows_of (found_of matches.now))) }
{
    Ok(Settings {
        predefines: predefines_of(alloc, value(matches, "predefines"))?,
        program: folders_of(alloc, value(matches, "system-dirs"))?,
    })
}

fn words_with(alloc: Global, matches: &ArgMatches<'_>, input: Input) -> Result<Words, NoMemory>
    ensures { IfOk result (λ words. words ≡ words_with (rows_of (found_of matches.now)) input) }
{
    Ok(Words {
        input,
        workers: workers_of(value(matches, "j")),
        schedule: schedule_of(value(matches, "schedule")),
        settings: settings_of(alloc, matches)?,
    })
}

fn by_matches(alloc: Global, matches: &ArgMatches<'_>) -> Result<Result<Words, Usage>, NoMemory>
    ensures { IfOk result (λ words. words ≡ by_rows (rows_of (found_of matches.now))) }
{
    if !is_known_format(value(matches, "format")) {
        return Ok(Err(Usage));
    }
    let database = value(matches, "compilation-database");
    match input_of(alloc, database, value(matches, "made"))? {
        Some(input) => Ok(Ok(words_with(alloc, matches, input)?)),
        None => Ok(Err(Usage)),
    }
}

fn by_parse(alloc: Global, parse: &Option<ArgMatches<'_>>) -> Result<Result<Words, Usage>, NoMemory>
    ensures { IfOk result (λ words. words ≡ by_parse parse.now) }
{
    match parse {
        Some(matches) => by_matches(alloc, matches),
        None => Ok(Err(Usage)),
    }
}

fn read_words(alloc: Global, words: &Vec<String>) -> Result<Result<Words, Usage>, NoMemory>
    ensures { IfOk result (λ read. read ≡ words_of (texts_of words.now.items)) }
{
    match parsed(alloc, words.as_slice()) {
        Ok(parse) => by_parse(alloc, &parse),
        Err(NoMemory) => Err(NoMemory),
    }
}

/// What the words ask for. The first word is the program's name.
///
/// `--compilation-database` is the database's path, `--made` the number of units of a made tree, from 1 to 4096, `-j` the number of workers, from 1 to 64 and 4 where it isn't given,
/// `--predefines` the file of the compiler's own macros, `--system-dirs` folders between colons, of which empty ones are
/// dropped, `--schedule` a number below 2 ^ 31, and `--format` is `p1689`. `Usage` comes exactly where `clap` finds a fault in the words, the format is
/// another one, or not exactly one of a database and a made tree is named. `Err` is want of memory alone.
pub fn read(alloc: Global, words: &Vec<String>) -> Result<Result<Words, Usage>, NoMemory>
    ensures reads { IfOk result (λ read. read ≡ words_of (texts_of words.now.items)) }
    ensures ranges { IfOk result (λ read. IfOk read HasRanges) }
    ensures fits { All IsShortWord words.now.items
        → IfOk result (λ read. IfOk read (λ words. SettingsFit words.settings)) }
{
    read_words(alloc, words)
}
