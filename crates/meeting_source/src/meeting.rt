use scan_model::{NoMemory, PathText};
use std::alloc::Global;
use std::sync::Arc;
use std::sync::atomic::{AtomicU64, Ordering};
use std::thread;

#[derive(Drop)]
struct Appointment {
    first: PathText,
    second: PathText,
    turns: u32,
    /// 1 once a read of the first path has begun.
    first_begun: AtomicU64,
    second_begun: AtomicU64,
}

/// An appointment of the reads of two paths. Each owner stands for the same one.
#[derive(Drop)]
pub struct Meeting {
    of: Arc<Appointment, Global>,
}

/// Which of the two paths it is.
#[derive(Clone, Copy)]
pub(crate) enum Part {
    First,
    Second,
    Neither,
}

impl Meeting {
    /// A read of one of the two paths looks so often whether a read of the other has begun.
    pub fn new(
        alloc: Global,
        first: PathText,
        second: PathText,
        turns: u32,
    ) -> Result<Meeting, NoMemory> {
        let appointment = Appointment {
            first,
            second,
            turns,
            first_begun: AtomicU64::new(0),
            second_begun: AtomicU64::new(0),
        };
        match Arc::new(alloc, appointment) {
            Ok(of) => Ok(Meeting { of }),
            Err(_) => Err(NoMemory),
        }
    }

    /// The same meeting, for one owner more.
    pub fn share(&self) -> Result<Meeting, NoMemory> {
        Ok(Meeting {
            of: Arc::try_clone(&self.of)?,
        })
    }

    pub(crate) fn part_of(&self, path: &[u8]) -> Part {
        if path == self.of.first.as_slice() {
            Part::First
        } else if path == self.of.second.as_slice() {
            Part::Second
        } else {
            Part::Neither
        }
    }

    /// Tells that the read of this part begins, and whether it need wait no longer: false where it waited in vain.
    pub(crate) fn meets(&self, part: Part) -> bool {
        match part {
            Part::First => meets(&self.of.first_begun, &self.of.second_begun, self.of.turns),
            Part::Second => meets(&self.of.second_begun, &self.of.first_begun, self.of.turns),
            Part::Neither => true,
        }
    }
}

fn meets(own: &AtomicU64, other: &AtomicU64, turns: u32) -> bool {
    own.store(1, Ordering::SeqCst);
    for _ in 0..turns {
        if other.load(Ordering::SeqCst) == 1 {
            return true;
        }
        thread::yield_now();
    }
    false
}
