ghost use Rattle.std.specs.Prelude.{◌≡◌, IfOk, MatchOption, IsUtf8, string_bytes};

use crate::NoMemory;
use std::alloc::Global;
use std::marker::Model;

/// Well-formed UTF-8, which contracts see as the list of its bytes.
#[derive(Drop)]
pub struct Text {
    text: String,
}

impl Model for Text {
    ghost use Rattle.std.specs.Prelude.{List, ℕ, string_bytes};

    ghost Value = { List ℕ };

    ghost view = { λ t. string_bytes t.text };
}

impl Text {
    /// None exactly where the bytes aren't well-formed UTF-8.
    pub fn read(alloc: Global, from: &[u8]) -> Result<Option<Text>, NoMemory>
        ensures { IfOk result (λ read. MatchOption read (¬ (IsUtf8 from.now)) (λ t. (t ≡ from.now) × IsUtf8 from.now)) }
    {
        match str::from_utf8(from) {
            Ok(text) => Ok(Some(Text::copy(alloc, text)?)),
            Err(_) => Ok(None),
        }
    }

    /// The same text in memory of its own.
    pub fn copy(alloc: Global, from: &str) -> Result<Text, NoMemory>
        ensures { IfOk result (λ t. t ≡ from.now) }
    {
        Ok(Text {
            text: String::from_str(alloc, from)?,
        })
    }

    pub fn of_string(text: String) -> Text
        ensures { result ≡ string_bytes text }
    {
        Text { text }
    }

    pub fn as_str(&self) -> &str
        ensures value { result.now ≡ self.now }
        ensures utf8 { IsUtf8 self.now }
    {
        self.text.as_str()
    }

    pub fn as_slice(&self) -> &[u8]
        ensures value { result.now ≡ self.now }
        ensures utf8 { IsUtf8 self.now }
    {
        self.text.as_str().as_bytes()
    }
}
