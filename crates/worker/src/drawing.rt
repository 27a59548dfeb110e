ghost use Rattle.std.specs.Prelude.{◌≡◌, ◌≤◌, [], ℕ, List, All, length, slice_get, MatchOption};
ghost use Rattle.scan_model.specs.Fits.{JobFits, SettingsFit};
ghost use Rattle.tickets.specs.Seats.{drawn_by, IsSeatOf};
ghost use Rattle.shared_cache.specs.Callers.{number_of, seen_by, IsHandOf};
ghost use Rattle.worker.specs.Seen.{SeesFurther};
ghost use Rattle.worker.specs.Claims.{HasClaimed};
ghost use Rattle.worker.specs.Shares.{ends_in, room_of};
ghost use Rattle.worker.specs.Work.{IsWorked};

use crate::hand::Hand;
use crate::units::end_of_job;
use answer_memo::Memo;
use file_source::Source;
use scan_model::{Items, Job, Settings};
use shared_cache::Cache;
use std::alloc::Global;
use std::sync::Wait;
use tickets::Tickets;

/// Draws numbers until one is past the jobs, and runs the job of each other one to its end, which goes into the hand's
/// share. An end is want of memory where there was too little for that job; nothing else fails.
pub fn work<Q: Wait, S: Source>(
    rt: &Q,
    alloc: Global,
    cache: &Cache<S>,
    tickets: &Tickets,
    jobs: &Items<Job>,
    settings: &Settings,
    hand: &mut Hand<S>,
)
    requires own { IsHandOf cache.now hand.old.passes }
    requires seat { IsSeatOf tickets.now hand.old.seat }
    requires drawn { drawn_by hand.old.seat ≡ [] }
    requires unclaimed { (path : List ℕ) → HasClaimed (seen_by hand.old.passes) (number_of hand.old.passes) path → ⊥ }
    requires share { ends_in hand.old.share ≡ [] }
    requires room { length jobs.now ≤ room_of hand.old.share }
    requires few { length jobs.now ≤ 131072 }
    requires jobs { All (λ job. JobFits job) jobs.now }
    requires settings { SettingsFit settings.now }
    ensures own { IsHandOf cache.now hand.new.passes × (number_of hand.new.passes ≡ number_of hand.old.passes) }
    ensures seat { IsSeatOf tickets.now hand.new.seat }
    ensures further { SeesFurther (seen_by hand.old.passes) (seen_by hand.new.passes) }

    // The ends of all jobs that were drawn, and the paths that were claimed, which are all published.
    ensures worked { IsWorked settings.now jobs.now (number_of hand.old.passes) (drawn_by hand.new.seat) (seen_by hand.new.passes) (ends_in hand.new.share) }
{
    let mut memo = Memo::new(alloc);
    'numbers: loop {
        let number = tickets.draw(&mut hand.seat);
        let Some(job) = job_at(jobs, number) else {
            return;
        };
        let end = end_of_job(rt, alloc, cache, &mut hand.passes, &mut memo, job, settings);
        hand.share.add(number, end);
    }
}

// The job with this number; None past the last.
fn job_at(jobs: &Items<Job>, number: u64) -> Option<&Job>
    ensures { MatchOption result (length jobs.now ≤ number) (λ job. slice_get jobs.now number ≡ Some job.now) }
{
    let jobs = jobs.as_slice();
    if number >= jobs.len() as u64 {
        return None;
    }
    Some(&jobs[number as usize])
}
