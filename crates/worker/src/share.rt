ghost use Rattle.std.specs.Prelude.{◌≡◌, ◌<◌, ◌≤◌, ◌++◌, [], ◌∷◌, IfOk, vec_len, vec_capacity};

use scan_model::{NoMemory, UnitEnd};
use std::alloc::Global;

/// The ends of the jobs that a worker drew, each with its job's number, in order of drawing.
#[derive(Drop)]
pub struct Share {
    ends: Vec<(u64, UnitEnd)>,
}

impl Share {
    /// No end yet, and room for this many. `Err` is want of memory.
    pub fn new(alloc: Global, room: u32) -> Result<Share, NoMemory>
        ensures none { IfOk result (λ share. share.ends.items ≡ []) }
        ensures room { IfOk result (λ share. room ≤ vec_capacity share.ends) }
    {
        let ends = Vec::with_capacity(alloc, room as usize)?;
        Ok(Share { ends })
    }

    /// Puts in the end of the job with this number, for which there is room.
    pub(crate) fn add(&mut self, number: u64, end: UnitEnd)
        requires { vec_len self.old.ends < vec_capacity self.old.ends }
        ensures ends { self.new.ends.items ≡ self.old.ends.items ++ (number, end) ∷ [] }
        ensures room { vec_capacity self.new.ends ≡ vec_capacity self.old.ends }
    {
        self.ends.push_reserved((number, end));
    }

    /// The numbers and ends, in order of drawing.
    pub fn into_ends(self) -> Vec<(u64, UnitEnd)>
        ensures { result.items ≡ self.ends.items }
    {
        let Share { ends } = self;
        ends
    }
}
