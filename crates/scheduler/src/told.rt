ghost use Rattle.std.specs.Prelude.{◌≡◌, IfOk};
ghost use Rattle.reducer.specs.Answers.{content_of};
ghost use Rattle.unit_laws.specs.Reduction.{reduced_content};
ghost use Rattle.scheduler.specs.Reading.{told_content, HasKept};

use boxcar::tag::{Names, Tag};
use reducer::Answer;
use scan_core::Reading;
use scan_model::NoMemory;
use std::marker::Model;

/// What units are told of a file. Clauses see it as what the file's read stands for.
#[derive(Drop)]
pub(crate) struct Told {
    answer: Answer,
    /// The file's bytes, for clauses alone.
    bytes: Tag,
}

impl Model for Told {
    ghost use Rattle.std.specs.Prelude.{List, ℕ};
    ghost use Rattle.scan_model.specs.Files.{Content};
    ghost use Rattle.scheduler.specs.Reading.{told_content, HasKept};

    ghost Value = { Content (List ℕ) };

    ghost view = { λ t. told_content t.answer t.bytes.numbers };

    ghost invariant = { λ t. HasKept t.answer t.bytes.numbers };
}

/// The bytes of a file, as a tag is read off them.
struct FileBytes;

impl<'a> Names<&'a [u8]> for FileBytes {
    ghost numbers = { λ bytes. bytes.now };
}

impl Told {
    /// What the answer tells of a file with these bytes. It takes no memory.
    pub(crate) fn of(answer: Answer, bytes: &[u8]) -> Told
        requires { HasKept answer bytes.now }
        ensures { result ≡ told_content answer bytes.now }
    {
        Told {
            answer,
            bytes: Tag::of::<&[u8], FileBytes>(&bytes),
        }
    }
}

impl Reading for Told {
    ghost content = { λ told. told };

    fn answer(&self) -> Result<Answer, NoMemory> {
        self.answer.share()
    }
}
