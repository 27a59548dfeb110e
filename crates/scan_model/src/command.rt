ghost use Rattle.std.specs.Prelude.{◌≡◌};
ghost use Rattle.scan_model.specs.HeaderName.{form_of};

use crate::{Items, PathText, Text};

/// How a header is looked for ([cpp.include]).
#[derive(Clone, Copy, Debug, PartialEq, Eq)]
pub enum Form {
    /// As a quoted name: in the including file's folder first.
    Quoted,
    /// As a name in angle brackets.
    Angled,
    /// As `#include_next` does: in the folders of the chain from this number on, whichever form is written.
    Next(u32),
}

impl Form {
    /// The form of a header's name in its own marks ([lex.header]).
    pub fn of(text: &[u8]) -> Form
        ensures { result ≡ form_of text.now }
    {
        if !text.is_empty() && text[0] == b'<' {
            Form::Angled
        } else {
            Form::Quoted
        }
    }
}

/// The edition of the language that a command asks for, as far as a scan depends on it.
#[derive(Clone, Copy, Debug, PartialEq, Eq)]
pub enum Dialect {
    Cxx20,
    Cxx23,
}

/// The folders of a command in which headers are looked for.
#[derive(Drop)]
pub struct SearchList {
    /// `-iquote`
    pub quote: Items<PathText>,
    /// `-I`
    pub angled: Items<PathText>,
    /// `-isystem`
    pub system: Items<PathText>,
    /// `-idirafter`
    pub after: Items<PathText>,
}

/// A macro that a command defines, `-D`, or takes away, `-U`: what follows `#define ` or `#undef `.
#[derive(Drop)]
pub enum Setting {
    Define(Text),
    Undef(Text),
}

/// What one entry of the database asks the compiler to do, as far as a scan needs it.
#[derive(Drop)]
pub struct Command {
    pub directory: PathText,
    pub main: PathText,
    /// The main path, as the record prints it.
    pub source: Text,
    /// The path of what the command makes.
    pub output: Text,
    /// `-D` and `-U`, in order.
    pub settings: Items<Setting>,
    /// The names of `-include`, in order.
    pub forced: Items<Text>,
    pub search: SearchList,
    pub dialect: Dialect,
}

/// What the program's own words say of every command.
#[derive(Drop)]
pub struct Settings {
    /// The file of the compiler's own macros.
    pub predefines: Option<PathText>,
    /// The folders of the program, which stand between `-isystem` and `-idirafter`.
    pub program: Items<PathText>,
}

/// Why a command isn't scanned at all.
#[derive(Clone, Copy, Debug, PartialEq, Eq)]
pub enum CommandFault {
    UnsupportedOption,
    BadCommand,
}

/// A command to scan, or one that is refused.
#[derive(Drop)]
pub enum Job {
    Run(Command),
    Refused(CommandFault),
}
