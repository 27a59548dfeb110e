ghost use Rattle.std.specs.Prelude.{◌≡◌};
ghost use Rattle.command_words.specs.Options.{takes_for_nothing, next_purpose, short_purpose, is_joined, long_class, joined_class, class_of};

/// What the text that an option takes is for.
#[derive(Clone, Copy, Debug, PartialEq, Eq)]
pub(crate) enum Purpose {
    /// `-D`
    Define,
    /// `-U`
    Undefine,
    /// `-I`
    AngledFolder,
    /// `-iquote`
    QuoteFolder,
    /// `-isystem`
    SystemFolder,
    /// `-idirafter`
    AfterFolder,
    /// `-include`
    ForcedFile,
    /// `-o`
    Output,
    /// The text says nothing that a scan needs.
    Nothing,
}

/// How a word is read that no option before it takes.
#[derive(Clone, Copy, Debug, PartialEq, Eq)]
pub(crate) enum WordClass {
    /// An option that takes the next word.
    Takes(Purpose),
    /// An option and its text, which begins at this byte.
    Joined(Purpose, usize),
    /// An option that this scanner refuses.
    Unsupported,
    /// Any other word.
    Other,
}

fn takes_for_nothing(word: &[u8]) -> bool
    ensures { result ≡ takes_for_nothing word.now }
{
    matches!(
        word,
        b"-x" | b"-MF" | b"-MT" | b"-MQ" | b"-MJ" | b"-target" | b"-arch"
    )
}

// What the next word is for, where the word takes it.
fn next_purpose(word: &[u8]) -> Option<Purpose>
    ensures { result ≡ next_purpose word.now }
{
    if word == b"-D".as_slice() {
        Some(Purpose::Define)
    } else if word == b"-U".as_slice() {
        Some(Purpose::Undefine)
    } else if word == b"-I".as_slice() {
        Some(Purpose::AngledFolder)
    } else if word == b"-o".as_slice() {
        Some(Purpose::Output)
    } else if word == b"-isystem".as_slice() {
        Some(Purpose::SystemFolder)
    } else if word == b"-iquote".as_slice() {
        Some(Purpose::QuoteFolder)
    } else if word == b"-idirafter".as_slice() {
        Some(Purpose::AfterFolder)
    } else if word == b"-include".as_slice() {
        Some(Purpose::ForcedFile)
    } else if takes_for_nothing(word) {
        Some(Purpose::Nothing)
    } else {
        None
    }
}

// What the text behind a name of two characters is for.
fn short_purpose(word: &[u8]) -> Option<Purpose>
    ensures { result ≡ short_purpose word.now }
{
    if word.starts_with(b"-D") {
        Some(Purpose::Define)
    } else if word.starts_with(b"-U") {
        Some(Purpose::Undefine)
    } else if word.starts_with(b"-I") {
        Some(Purpose::AngledFolder)
    } else if word.starts_with(b"-o") {
        Some(Purpose::Output)
    } else {
        None
    }
}

// Whether the word begins with this name and what is behind it doesn't begin with `-`.
fn is_joined(name: &[u8], word: &[u8]) -> bool
    ensures { result ≡ is_joined name.now word.now }
{
    match word.strip_prefix(name) {
        Some(text) => !text.starts_with(b"-"),
        None => false,
    }
}

fn long_class(word: &[u8]) -> WordClass
    ensures { result ≡ long_class word.now }
{
    if word.starts_with(b"-imacros") {
        WordClass::Unsupported
    } else if is_joined(b"-isystem", word) {
        WordClass::Joined(Purpose::SystemFolder, 8)
    } else if is_joined(b"-iquote", word) {
        WordClass::Joined(Purpose::QuoteFolder, 7)
    } else if is_joined(b"-idirafter", word) {
        WordClass::Joined(Purpose::AfterFolder, 10)
    } else {
        WordClass::Other
    }
}

fn joined_class(word: &[u8]) -> WordClass
    ensures { result ≡ joined_class word.now }
{
    match short_purpose(word) {
        Some(purpose) => WordClass::Joined(purpose, 2),
        None => long_class(word),
    }
}

/// The class of a word that no option before it takes.
#[tactic(auto, unfolding(crate::specs::Options::class_of))]
pub(crate) fn class_of(word: &[u8]) -> WordClass
    ensures { result ≡ class_of word.now }
{
    match next_purpose(word) {
        Some(purpose) => WordClass::Takes(purpose),
        None => joined_class(word),
    }
}
