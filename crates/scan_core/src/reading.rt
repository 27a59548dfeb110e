ghost use Rattle.std.specs.Prelude.{◌≡◌, IfOk};
ghost use Rattle.reducer.specs.Answers.{content_of};
ghost use Rattle.unit_laws.specs.Reduction.{reduced_content};

use reducer::Answer;
use scan_model::NoMemory;

/// What one read of a file gave, and the lines that are kept of it.
pub trait Reading: Drop {
    ghost use Rattle.std.specs.Prelude.{List, ℕ};
    ghost use Rattle.scan_model.specs.Files.{Content};

    /// What the read stands for.
    ghost content: { Self → Content (List ℕ) };

    /// What a unit is told of the file. `Err` is want of memory.
    fn answer(&self) -> Result<Answer, NoMemory>
        ensures { IfOk result (λ answer. content_of answer ≡ reduced_content (content self.now)) };
}
