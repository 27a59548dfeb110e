ghost use Rattle.std.specs.Prelude.{◌≡◌, Some};
ghost use Rattle.std.specs.Option.{option_map};
ghost use Rattle.std.specs.List.{find};
ghost use Rattle.word_table.specs.Rows.{value_of, longer, has_word, longest_row, entries};

/// A row of a table: a word, or the spelling of a punctuator, and its value.
#[derive(Clone, Copy)]
pub struct Row {
    pub text: &'static [u8],
    pub value: u32,
}

/// The value of the first row whose text is the word. None exactly where no row has it.
pub fn find(rows: &[Row], word: &[u8]) -> Option<u32>
    ensures { result ≡ option_map value_of (find (has_word word.now) (entries rows.now)) }
{
    for row in rows {
        if row.text == word {
            return Some(row.value);
        }
    }
    None
}

/// The value and the length of the first row among the longest whose text is a prefix of the given one. None exactly
/// where there is none.
pub fn longest(rows: &[Row], text: &[u8]) -> Option<(u32, usize)>
    ensures { result ≡ longest_row text.now (entries rows.now) }
{
    let mut best: Option<(u32, usize)> = None;
    for row in rows {
        if text.starts_with(row.text) {
            best = longer(best, (row.value, row.text.len()));
        }
    }
    best
}

// The later one only where it is longer.
fn longer(best: Option<(u32, usize)>, later: (u32, usize)) -> Option<(u32, usize)>
    ensures { result ≡ longer best (Some later) }
{
    match best {
        Some(old) => {
            if later.1 <= old.1 {
                Some(old)
            } else {
                Some(later)
            }
        }
        None => Some(later),
    }
}
