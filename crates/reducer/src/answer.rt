ghost use Rattle.std.specs.Prelude.{◌≡◌, IfOk, OnErr};
ghost use Rattle.reducer.specs.Answers.{content_of, HasLines};

use crate::Reduced;
use scan_model::NoMemory;
use std::alloc::Global;
use std::sync::Arc;

/// What a unit is told of a file: its kept lines, or why there are none.
#[derive(Drop)]
pub enum Answer {
    Lines(Arc<Reduced, Global>),
    /// There is no such file.
    Absent,
    /// A call of the read failed.
    Failed,
    /// The file has more bytes than a file may have.
    Big,
    /// Memory was wanting.
    NoMemory,
}

impl Answer {
    /// An equal answer, whose lines have one owner more. `Err` is want of memory, and comes for `Lines` alone.
    pub fn share(&self) -> Result<Answer, NoMemory>
        ensures same { IfOk result (λ shared. content_of shared ≡ content_of self.now) }
        ensures err { OnErr result (HasLines self.now) }
    {
        Ok(match self {
            Answer::Lines(lines) => Answer::Lines(Arc::try_clone(lines)?),
            Answer::Absent => Answer::Absent,
            Answer::Failed => Answer::Failed,
            Answer::Big => Answer::Big,
            Answer::NoMemory => Answer::NoMemory,
        })
    }
}
