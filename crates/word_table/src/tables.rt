ghost use Rattle.std.specs.Prelude.{◌≡◌};
ghost use Rattle.std.specs.Option.{option_map};
ghost use Rattle.std.specs.List.{find};
ghost use Rattle.word_table.specs.Rows.{value_of, has_word, longest_row, entries};
ghost use Rattle.word_table.specs.Tables.{directive_words, operator_words, punctuators, rows_from, attributes};

use crate::{Row, find, longest};

macro_rules! rows {
    ($($text:literal => $value:literal),* $(,)?) => {
        [$(Row { text: $text, value: $value }),*]
    };
}

/// The number of a directive's name, from 0 ([cpp.pre]). None exactly where the word is no such name.
pub fn directive_word(word: &[u8]) -> Option<u32>
    ensures { result ≡ option_map value_of (find (has_word word.now) directive_words) }
{
    const ROWS: [Row; 17] = rows![
        b"define" => 0, b"undef" => 1,
        b"if" => 2, b"elif" => 3, b"ifdef" => 4, b"ifndef" => 5, b"else" => 6, b"endif" => 7,
        b"include" => 8, b"line" => 9, b"error" => 10, b"pragma" => 11, b"warning" => 12, b"ident" => 13,
        b"elifdef" => 14, b"elifndef" => 15, b"include_next" => 16,
    ];
    find(&ROWS, word)
}

/// The number, from 0, and the length of the longest punctuator that the text begins with ([lex.operators]). A digraph
/// has the number of its primary token ([lex.digraph]); the alternative words are left to `operator_word`. None exactly
/// where the text begins with no punctuator.
pub fn punctuator(text: &[u8]) -> Option<(u32, usize)>
    ensures { result ≡ longest_row text.now punctuators }
{
    if text.len() == 0 {
        return None;
    }
    longest(rows_from(text[0]), text)
}

// The punctuators that begin with the byte, in the order of the whole table.
fn rows_from(first: u8) -> &'static [Row]
    ensures { entries result.now ≡ rows_from first }
{
    match first {
        b'{' => &rows![b"{" => 0],
        b'}' => &rows![b"}" => 1],
        b'[' => &rows![b"[" => 2],
        b']' => &rows![b"]" => 3],
        b'(' => &rows![b"(" => 4],
        b')' => &rows![b")" => 5],
        b';' => &rows![b";" => 6],
        b':' => &rows![b":" => 7, b"::" => 10, b":>" => 3],
        b'.' => &rows![b"..." => 8, b"." => 11, b".*" => 12],
        b'?' => &rows![b"?" => 9],
        b'-' => &rows![b"->" => 13, b"->*" => 14, b"-" => 18, b"-=" => 27, b"--" => 48],
        b'~' => &rows![b"~" => 15],
        b'!' => &rows![b"!" => 16, b"!=" => 35],
        b'+' => &rows![b"+" => 17, b"+=" => 26, b"++" => 47],
        b'*' => &rows![b"*" => 19, b"*=" => 28],
        b'/' => &rows![b"/" => 20, b"/=" => 29],
        b'%' => &rows![b"%" => 21, b"%=" => 30, b"%>" => 1, b"%:" => 50, b"%:%:" => 51],
        b'^' => &rows![b"^" => 22, b"^=" => 31],
        b'&' => &rows![b"&" => 23, b"&=" => 32, b"&&" => 41],
        b'|' => &rows![b"|" => 24, b"|=" => 33, b"||" => 42],
        b'=' => &rows![b"=" => 25, b"==" => 34],
        b'<' =>
            &rows![b"<" => 36, b"<=" => 38, b"<=>" => 40, b"<<" => 43, b"<<=" => 45, b"<:" => 2, b"<%" => 0],
        b'>' => &rows![b">" => 37, b">=" => 39, b">>" => 44, b">>=" => 46],
        b',' => &rows![b"," => 49],
        b'#' => &rows![b"#" => 50, b"##" => 51],
        _ => &[],
    }
}

/// The number of the punctuator that an alternative word stands for, as `punctuator` gives it ([lex.digraph]). None
/// exactly where the word is no alternative token.
pub fn operator_word(word: &[u8]) -> Option<u32>
    ensures { result ≡ option_map value_of (find (has_word word.now) operator_words) }
{
    const ROWS: [Row; 11] = rows![
        b"and" => 41, b"or" => 42, b"not" => 16, b"xor" => 22, b"bitand" => 23, b"bitor" => 24, b"compl" => 15,
        b"and_eq" => 32, b"or_eq" => 33, b"xor_eq" => 31, b"not_eq" => 35,
    ];
    find(&ROWS, word)
}

/// What `__has_cpp_attribute` gives for a standard attribute: the year and the month of its feature test
/// ([cpp.cond]). None exactly where the word is none of them.
pub fn attribute_value(word: &[u8]) -> Option<u32>
    ensures { result ≡ option_map value_of (find (has_word word.now) attributes) }
{
    const ROWS: [Row; 9] = rows![
        b"carries_dependency" => 200809, b"deprecated" => 201309, b"fallthrough" => 201603,
        b"likely" => 201803, b"maybe_unused" => 201603, b"no_unique_address" => 201803,
        b"nodiscard" => 201907, b"noreturn" => 200809, b"unlikely" => 201803,
    ];
    find(&ROWS, word)
}
