ghost use Rattle.std.specs.Prelude.{◌≡◌, ◌++◌, if◌then◌else◌, IfOk, OnOk, IsUtf8, string_bytes};
ghost use Rattle.command_words.specs.Splitting.{is_separator, is_special, is_kept_in_double, mode_outside, next_mode, is_dropped, keeps_backslash, kept, ends_word, seen, start, step, finish, split_to_end, split};

use crate::bad_command::BadCommand;
use scan_model::{Items, NoMemory, Text};
use std::alloc::Global;
use std::mem;

/// Where in a command's text a character stands.
#[derive(Clone, Copy, Debug, PartialEq, Eq)]
pub(crate) enum Mode {
    /// Outside words.
    Between,
    /// In a word, outside quotes.
    Bare,
    /// After a backslash outside quotes.
    Escaped,
    /// Inside `'`.
    Single,
    /// Inside `"`.
    Double,
    /// After a backslash inside `"`.
    DoubleEscaped,
}

/// The words of the text so far, and the one that is under way.
#[derive(Drop)]
pub(crate) struct Splitter {
    mode: Mode,
    word: String,
    words: Vec<Text>,
}

fn is_separator(c: char) -> bool
    ensures { result ≡ is_separator c }
{
    c == ' ' || c == '\t' || c == '\r' || c == '\n'
}

fn is_kept_in_double(c: char) -> bool
    ensures { result ≡ is_kept_in_double c }
{
    c == '"' || c == '\\'
}

fn is_special(c: char) -> bool
    ensures { result ≡ is_special c }
{
    is_separator(c) || c == '\'' || is_kept_in_double(c)
}

fn mode_outside(c: char) -> Mode
    ensures { result ≡ mode_outside c }
{
    if is_separator(c) {
        Mode::Between
    } else if c == '\'' {
        Mode::Single
    } else if c == '"' {
        Mode::Double
    } else if c == '\\' {
        Mode::Escaped
    } else {
        Mode::Bare
    }
}

fn next_mode(mode: Mode, c: char) -> Mode
    ensures { result ≡ next_mode mode c }
{
    match mode {
        Mode::Between | Mode::Bare => mode_outside(c),
        Mode::Escaped => Mode::Bare,
        Mode::Single => if c == '\'' { Mode::Bare } else { Mode::Single },
        Mode::Double => match c {
            '"' => Mode::Bare,
            '\\' => Mode::DoubleEscaped,
            _ => Mode::Double,
        },
        Mode::DoubleEscaped => Mode::Double,
    }
}

fn ends_word(mode: Mode, c: char) -> bool
    ensures { result ≡ ends_word mode c }
{
    match mode {
        Mode::Bare => is_separator(c),
        _ => false,
    }
}

// Whether a character only says where words and quotes begin and end.
fn is_dropped(mode: Mode, c: char) -> bool
    ensures { result ≡ is_dropped mode c }
{
    match mode {
        Mode::Between | Mode::Bare => is_special(c),
        Mode::Single => c == '\'',
        Mode::Double => is_kept_in_double(c),
        Mode::Escaped | Mode::DoubleEscaped => false,
    }
}

// Whether a backslash inside `"` stays before this character.
fn keeps_backslash(mode: Mode, c: char) -> bool
    ensures { result ≡ keeps_backslash mode c }
{
    match mode {
        Mode::DoubleEscaped => !is_kept_in_double(c),
        _ => false,
    }
}

// Appends what the word gets of a character.
fn keep(word: &mut String, mode: Mode, c: char) -> Result<(), NoMemory>
    ensures { OnOk result (string_bytes word.new ≡ string_bytes word.old ++ kept mode c) }
{
    if is_dropped(mode, c) {
        return Ok(());
    }
    if keeps_backslash(mode, c) {
        word.push('\\')?;
    }
    word.push(c)?;
    Ok(())
}

impl Splitter {
    fn new(alloc: Global) -> Splitter
        ensures { seen result ≡ start }
    {
        Splitter {
            mode: Mode::Between,
            word: String::new(alloc),
            words: Vec::new(alloc),
        }
    }

    fn take(&mut self, alloc: Global, c: char) -> Result<(), NoMemory>
        ensures { OnOk result (seen self.new ≡ step (seen self.old) c) }
    {
        if ends_word(self.mode, c) {
            let word = mem::replace(&mut self.word, String::new(alloc));
            self.words.push(Text::of_string(word))?;
        } else {
            keep(&mut self.word, self.mode, c)?;
        }
        self.mode = next_mode(self.mode, c);
        Ok(())
    }

    fn finish(self) -> Result<Result<Items<Text>, BadCommand>, NoMemory>
        ensures { IfOk result (λ words. words ≡ finish (seen self)) }
    {
        let Splitter {
            mode,
            word,
            mut words,
        } = self;
        match mode {
            Mode::Between => Ok(Ok(Items::of_vec(words))),
            Mode::Bare => {
                words.push(Text::of_string(word))?;
                Ok(Ok(Items::of_vec(words)))
            }
            _ => Ok(Err(BadCommand)),
        }
    }
}

// All of the text's characters, taken one after another.
fn split_text(alloc: Global, text: &str) -> Result<Splitter, NoMemory>
    ensures { IfOk result (λ splitter. seen splitter ≡ split_to_end text.now) }
{
    let mut splitter = Splitter::new(alloc);
    'characters: for c in text.chars() {
        splitter.take(alloc, c)?;
    }
    Ok(splitter)
}

/// The words of a command's text, as a shell would read them.
///
/// Space, tab, CR and LF part words. `'` keeps all up to the next `'`. Inside `"` a backslash keeps the next character
/// where that is `"` or `\`, and stays otherwise; outside quotes it keeps any character. A quote may be part of a word,
/// and `""` by itself is an empty word. `BadCommand` comes exactly where a quote stays open or a backslash is last. `Err`
/// is want of memory alone.
pub fn split(alloc: Global, text: &[u8]) -> Result<Result<Items<Text>, BadCommand>, NoMemory>
    requires { IsUtf8 text.now }
    ensures { IfOk result (λ words. words ≡ split text.now) }
{
    match str::from_utf8(text) {
        Ok(text) => split_text(alloc, text)?.finish(),
        Err(_) => unreachable!(),
    }
}
