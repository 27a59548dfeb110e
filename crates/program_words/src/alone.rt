ghost use Rattle.std.specs.Prelude.{◌≡◌};
ghost use Rattle.program_words.specs.Alone.{is_alone_word, asks_alone, is_alone};
ghost use Rattle.program_words.specs.Words.{texts_of};

fn is_alone_word(word: &str) -> bool
    ensures { result ≡ is_alone_word word.now }
{
    word == "-j1" || word == "-j=1" || word.as_bytes().starts_with(b"--schedule")
}

fn asks_alone(after_count: bool, word: &str) -> bool
    ensures { result ≡ asks_alone after_count word.now }
{
    is_alone_word(word) || (after_count && word == "1")
}

/// Whether the words ask for a run on one thread: some word is `-j1` or `-j=1`, or is `-j` with `1` as the next word, or
/// begins with `--schedule`. It takes no memory.
pub fn is_alone(words: &Vec<String>) -> bool
    ensures { result ≡ is_alone (texts_of words.now.items) }
{
    let mut after_count = false;
    'words: for word in words {
        let word = word.as_str();
        if asks_alone(after_count, word) {
            return true;
        }
        after_count = word == "-j";
    }
    false
}
