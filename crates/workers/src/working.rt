//! The work of all hands, each on a thread of its own.
ghost use Rattle.std.specs.Prelude.{◌≡◌, ◌≤◌, [], All, length};
ghost use Rattle.scan_model.specs.Fits.{JobFits, SettingsFit};
ghost use Rattle.workers.specs.Hands.{IsReady, IsDone, AreReady, AreDone};

use crate::crew::{Crew, put_together, take_apart};
use file_source::Source;
use scan_model::{Items, Job, Settings};
use shared_cache::Cache;
use std::alloc::Global;
use std::sync::Wait;
use std::thread;
use std::thread::Threads;
use tickets::Tickets;
use worker::{Hand, work};

/// The most workers.
const MOST_WORKERS: usize = 64;

// Each hand works on a thread of its own, until all numbers of jobs are drawn.
fn work_all<Q: Threads + Wait + Sync, S: Source>(
    rt: &Q,
    alloc: Global,
    cache: &Cache<S>,
    tickets: &Tickets,
    jobs: &Items<Job>,
    settings: &Settings,
    mut hands: Vec<Hand<S>>,
) -> Vec<Hand<S>>
    requires ready { All (IsReady cache.now tickets.now (length jobs.now)) hands.items }
    requires few { length jobs.now ≤ 131072 }
    requires jobs { All (λ job. JobFits job) jobs.now }
    requires settings { SettingsFit settings.now }
    ensures done { All (IsDone cache.now tickets.now settings.now jobs.now) result.items }
    ensures count { length result.items ≡ length hands.items }
{
    thread::for_each_mut(
        rt,
        hands.as_mut_slice(),
        MOST_WORKERS,
        &|_, hand: &mut Hand<S>|
            requires ready { IsReady cache.now tickets.now (length jobs.now) hand.old }
            requires few { length jobs.now ≤ 131072 }
            requires jobs { All (λ job. JobFits job) jobs.now }
            requires settings { SettingsFit settings.now }
            ensures { IsDone cache.entry.now tickets.entry.now settings.entry.now jobs.entry.now hand.new }
        { work(rt, alloc, cache, tickets, jobs, settings, hand) },
    );
    hands
}

/// Each worker works on a thread of its own, until all numbers of jobs are drawn. The workers' things are apart before and
/// after.
pub(crate) fn work_together<Q: Threads + Wait + Sync, S: Source>(
    rt: &Q,
    alloc: Global,
    cache: &Cache<S>,
    tickets: &Tickets,
    jobs: &Items<Job>,
    settings: &Settings,
    crew: Crew<S>,
) -> Crew<S>
    requires ready { AreReady cache.now tickets.now (length jobs.now) crew }
    requires few { length jobs.now ≤ 131072 }
    requires jobs { All (λ job. JobFits job) jobs.now }
    requires settings { SettingsFit settings.now }
    ensures done { AreDone cache.now tickets.now settings.now jobs.now result.seats.items result.passes.items result.shares.items }
    ensures count { length result.seats.items ≡ length crew.seats.items }
    ensures emptied { result.hands.items ≡ [] }
{
    let Crew {
        seats,
        passes,
        shares,
        hands,
    } = put_together(crew);
    let hands = work_all(rt, alloc, cache, tickets, jobs, settings, hands);
    take_apart(Crew {
        seats,
        passes,
        shares,
        hands,
    })
}
