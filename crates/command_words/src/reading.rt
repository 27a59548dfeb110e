ghost use Rattle.std.specs.Prelude.{◌≡◌, ◌∷◌, ◌++◌, [], ◌+◌, ◌^◌, ◌-◌, codes, min, IfOk, OnOk};
ghost use Rattle.scan_model.specs.Dialects.{dialect_named, dialect_after};
ghost use Rattle.scan_model.specs.Spelling.{is_one_of};
ghost use Rattle.command_words.specs.Options.{class_of};
ghost use Rattle.command_words.specs.Reading.{nothing_read, added, is_full, is_added, is_setting, is_bad_setting, is_refused, later_names, defined, with_folder, with_setting, with_forced, with_output, with_text, take, by_class, step, ended, walk};

use crate::options::{Purpose, WordClass, class_of};
use path_search::join;
use scan_model::{
    CommandFault, Dialect, FILE_LIMIT, Items, NoMemory, PathText, SearchList, Setting, Text,
};
use std::alloc::Global;

// The most bytes of a macro's text in a word of the command.
const SETTING_LIMIT: usize = 33_554_400;

/// What the words of a command say, as far as they are read.
#[derive(Drop)]
pub(crate) struct Reading {
    pub(crate) settings: Items<Setting>,
    pub(crate) forced: Items<Text>,
    pub(crate) search: SearchList,
    /// The text of the last `-o`.
    pub(crate) output: Option<Text>,
    pub(crate) dialect: Dialect,
    /// What the next word is for, where the word before takes it.
    pub(crate) waits: Option<Purpose>,
}

fn is_later(name: &[u8]) -> bool
    ensures { result ≡ is_one_of later_names name.now }
{
    matches!(
        name,
        b"c++23"
            | b"c++2b"
            | b"c++26"
            | b"c++2c"
            | b"gnu++23"
            | b"gnu++2b"
            | b"gnu++26"
            | b"gnu++2c"
    )
}

fn dialect_named(name: &[u8]) -> Dialect
    ensures { result ≡ dialect_named name.now }
{
    if is_later(name) {
        Dialect::Cxx23
    } else {
        Dialect::Cxx20
    }
}

fn dialect_after(dialect: Dialect, word: &[u8]) -> Dialect
    ensures { result ≡ dialect_after dialect word.now }
{
    match word.strip_prefix(b"-std=") {
        Some(name) => dialect_named(name),
        None => dialect,
    }
}

fn is_added(purpose: Purpose) -> bool
    ensures { result ≡ is_added purpose }
{
    !matches!(purpose, Purpose::Output | Purpose::Nothing)
}

fn is_setting(purpose: Purpose) -> bool
    ensures { result ≡ is_setting purpose }
{
    matches!(purpose, Purpose::Define | Purpose::Undefine)
}

fn is_bad_setting(text: &[u8]) -> bool
    ensures { result ≡ is_bad_setting text.now }
{
    text.len() > SETTING_LIMIT || text.contains(&b'\n')
}

// The text with a blank for its first `=`.
fn with_value(alloc: Global, name: &str, value: &str) -> Result<Text, NoMemory>
    ensures { IfOk result (λ made. made ≡ name.now ++ 32 ∷ value.now) }
{
    let mut made = String::from_str(alloc, name)?;
    made.push_str(" ")?;
    made.push_str(value)?;
    Ok(Text::of_string(made))
}

fn with_one(alloc: Global, name: &str) -> Result<Text, NoMemory>
    ensures { IfOk result (λ made. made ≡ name.now ++ codes " 1") }
{
    let mut made = String::from_str(alloc, name)?;
    made.push_str(" 1")?;
    Ok(Text::of_string(made))
}

// What `-D` defines: its first `=` stands for a blank, and without one the macro is 1.
fn defined(alloc: Global, text: &str) -> Result<Text, NoMemory>
    ensures { IfOk result (λ made. made ≡ defined text.now) }
{
    match text.split_once('=') {
        Some((name, value)) => with_value(alloc, name, value),
        None => with_one(alloc, text),
    }
}

// Adds at the end.
fn put<T: Drop>(list: &mut Items<T>, item: T) -> Result<(), NoMemory>
    ensures { OnOk result (list.new ≡ list.old ++ item ∷ []) }
{
    match list.push(item) {
        Ok(()) => Ok(()),
        Err(_) => Err(NoMemory),
    }
}

fn with_folder(
    mut search: SearchList,
    purpose: Purpose,
    path: PathText,
) -> Result<SearchList, NoMemory>
    ensures { IfOk result (λ s. s ≡ with_folder purpose path search) }
{
    match purpose {
        Purpose::AngledFolder => put(&mut search.angled, path)?,
        Purpose::QuoteFolder => put(&mut search.quote, path)?,
        Purpose::SystemFolder => put(&mut search.system, path)?,
        Purpose::AfterFolder => put(&mut search.after, path)?,
        _ => {}
    }
    Ok(search)
}

impl Reading {
    fn new(alloc: Global) -> Reading
        ensures { result ≡ nothing_read }
    {
        Reading {
            settings: Items::new(alloc),
            forced: Items::new(alloc),
            search: SearchList {
                quote: Items::new(alloc),
                angled: Items::new(alloc),
                system: Items::new(alloc),
                after: Items::new(alloc),
            },
            output: None,
            dialect: Dialect::Cxx20,
            waits: None,
        }
    }

    // How many settings, forced files and folders there are.
    fn added(&self) -> usize
        ensures { result ≡ min (2 ^ 64 - 1) (added self.now) }
    {
        self.settings
            .as_slice()
            .len()
            .saturating_add(self.forced.as_slice().len())
            .saturating_add(self.search.quote.as_slice().len())
            .saturating_add(self.search.angled.as_slice().len())
            .saturating_add(self.search.system.as_slice().len())
            .saturating_add(self.search.after.as_slice().len())
    }

    fn is_full(&self) -> bool
        ensures { result ≡ is_full self.now }
    {
        self.added() >= FILE_LIMIT
    }

    fn is_refused(&self, purpose: Purpose, text: &[u8]) -> bool
        ensures { result ≡ is_refused purpose text.now self.now }
    {
        (is_added(purpose) && self.is_full()) || (is_setting(purpose) && is_bad_setting(text))
    }

    fn with_setting(mut self, setting: Setting) -> Result<Reading, NoMemory>
        ensures { IfOk result (λ r. r ≡ with_setting setting self) }
    {
        put(&mut self.settings, setting)?;
        Ok(self)
    }

    fn with_forced(mut self, name: Text) -> Result<Reading, NoMemory>
        ensures { IfOk result (λ r. r ≡ with_forced name self) }
    {
        put(&mut self.forced, name)?;
        Ok(self)
    }

    fn with_output(mut self, name: Text) -> Result<Reading, NoMemory>
        ensures { IfOk result (λ r. r ≡ with_output name self) }
    {
        self.output = Some(name);
        Ok(self)
    }

    fn with_text(
        self,
        alloc: Global,
        directory: &PathText,
        purpose: Purpose,
        text: &str,
    ) -> Result<Reading, NoMemory>
        ensures { IfOk result (λ r. r ≡ with_text directory.now purpose text.now self) }
    {
        match purpose {
            Purpose::Define => self.with_setting(Setting::Define(defined(alloc, text)?)),
            Purpose::Undefine => self.with_setting(Setting::Undef(Text::copy(alloc, text)?)),
            Purpose::ForcedFile => self.with_forced(Text::copy(alloc, text)?),
            Purpose::Output => self.with_output(Text::copy(alloc, text)?),
            Purpose::Nothing => Ok(self),
            Purpose::AngledFolder
            | Purpose::QuoteFolder
            | Purpose::SystemFolder
            | Purpose::AfterFolder => {
                self.with_folder(purpose, join(alloc, directory, text.as_bytes())?)
            }
        }
    }

    fn with_folder(self, purpose: Purpose, path: PathText) -> Result<Reading, NoMemory>
        ensures { IfOk result (λ r. r ≡ record self { search = with_folder purpose path self.search }) }
    {
        Ok(Reading {
            settings: self.settings,
            forced: self.forced,
            search: with_folder(self.search, purpose, path)?,
            output: self.output,
            dialect: self.dialect,
            waits: self.waits,
        })
    }

    // An option's text is read.
    fn take(
        self,
        alloc: Global,
        directory: &PathText,
        purpose: Purpose,
        text: &str,
    ) -> Result<Result<Reading, CommandFault>, NoMemory>
        ensures { IfOk result (λ r. r ≡ take directory.now purpose text.now self) }
    {
        if self.is_refused(purpose, text.as_bytes()) {
            return Ok(Err(CommandFault::BadCommand));
        }
        Ok(Ok(self.with_text(alloc, directory, purpose, text)?))
    }

    fn waiting(mut self, waits: Option<Purpose>) -> Reading
        ensures { result ≡ record self { waits = waits } }
    {
        self.waits = waits;
        self
    }

    fn with_dialect(mut self, dialect: Dialect) -> Reading
        ensures { result ≡ record self { dialect = dialect } }
    {
        self.dialect = dialect;
        self
    }

    // A word that no option before it takes.
    fn look(
        self,
        alloc: Global,
        directory: &PathText,
        word: &str,
    ) -> Result<Result<Reading, CommandFault>, NoMemory>
        ensures { IfOk result (λ r. r ≡ by_class directory.now (class_of word.now) word.now self) }
    {
        match class_of(word.as_bytes()) {
            WordClass::Takes(purpose) => Ok(Ok(self.waiting(Some(purpose)))),
            WordClass::Joined(purpose, at) => self.take(alloc, directory, purpose, &word[at..]),
            WordClass::Unsupported => Ok(Err(CommandFault::UnsupportedOption)),
            WordClass::Other => {
                let dialect = dialect_after(self.dialect, word.as_bytes());
                Ok(Ok(self.with_dialect(dialect)))
            }
        }
    }

    fn step(
        self,
        alloc: Global,
        directory: &PathText,
        word: &str,
    ) -> Result<Result<Reading, CommandFault>, NoMemory>
        ensures { IfOk result (λ r. r ≡ step directory.now word.now self) }
    {
        match self.waits {
            Some(purpose) => self.waiting(None).take(alloc, directory, purpose, word),
            None => self.look(alloc, directory, word),
        }
    }

    fn ended(self) -> Result<Reading, CommandFault>
        ensures { result ≡ ended self }
    {
        match self.waits {
            Some(_) => Err(CommandFault::BadCommand),
            None => Ok(self),
        }
    }
}

/// What these words say, from left to right, or the first of their faults.
pub(crate) fn read_words(
    alloc: Global,
    directory: &PathText,
    words: &[Text],
) -> Result<Result<Reading, CommandFault>, NoMemory>
    ensures { IfOk result (λ r. r ≡ walk directory.now words.now nothing_read) }
{
    let mut reading = Reading::new(alloc);
    'words: for word in words {
        reading = match reading.step(alloc, directory, word.as_str())? {
            Ok(next) => next,
            Err(fault) => return Ok(Err(fault)),
        };
    }
    Ok(reading.ended())
}
