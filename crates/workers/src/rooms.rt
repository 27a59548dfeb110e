//! What a scan takes of memory before it begins, beside its cache.
ghost use Rattle.std.specs.Prelude.{◌≡◌, ◌<◌, ◌≤◌, [], None, All, IfOk, length};
ghost use Rattle.worker.specs.Shares.{ends_in, room_of};
ghost use Rattle.workers.specs.Rooms.{AreRooms};

use file_source::Source;
use scan_model::{Items, NoMemory, UnitEnd};
use std::alloc::Global;
use tickets::{TicketSeat, Tickets};
use worker::{Hand, Share};

/// The tickets, and for each worker a seat and a share. For each job a place for its end, and room for the ends in order.
#[derive(Drop)]
pub(crate) struct Rooms {
    pub(crate) tickets: Tickets,
    pub(crate) seats: Items<TicketSeat>,
    pub(crate) shares: Vec<Share>,
    pub(crate) places: Vec<Option<UnitEnd>>,
    pub(crate) ends: Vec<UnitEnd>,
}

// A share for each worker, with room for the ends of all jobs.
fn shares(alloc: Global, workers: u32, jobs: u32) -> Result<Vec<Share>, NoMemory>
    ensures count { IfOk result (λ shares. length shares.items ≡ workers) }
    ensures ready { IfOk result (λ shares. All (λ share. (ends_in share ≡ []) × (jobs ≤ room_of share)) shares.items) }
{
    let mut shares = Vec::with_capacity(alloc, workers as usize)?;
    'workers: for _number in 0..workers {
        shares.push_reserved(Share::new(alloc, jobs)?);
    }
    Ok(shares)
}

// A place for each job, without an end.
fn no_ends(alloc: Global, jobs: u32) -> Result<Vec<Option<UnitEnd>>, NoMemory>
    ensures count { IfOk result (λ places. length places.items ≡ jobs) }
    ensures none { IfOk result (λ places. All (λ place. place ≡ None) places.items) }
{
    let mut places = Vec::with_capacity(alloc, jobs as usize)?;
    'jobs: for _number in 0..jobs {
        places.push_reserved(None);
    }
    Ok(places)
}

/// All of it, for so many jobs and workers, and room for the workers' hands. `Err` is want of memory.
pub(crate) fn take_rooms<S: Source>(
    alloc: Global,
    jobs: u32,
    workers: u32,
) -> Result<(Rooms, Vec<Hand<S>>), NoMemory>
    requires { (0 < workers) × (workers ≤ 64) }
    ensures { IfOk result (λ r. AreRooms jobs workers r.0 r.1) }
{
    let shares = shares(alloc, workers, jobs)?;
    let places = no_ends(alloc, jobs)?;
    let ends = Vec::with_capacity(alloc, jobs as usize)?;
    let (tickets, seats) = Tickets::new(alloc, workers)?;
    let hands = Vec::with_capacity(alloc, workers as usize)?;
    let rooms = Rooms {
        tickets,
        seats,
        shares,
        places,
        ends,
    };
    Ok((rooms, hands))
}
