//! The rows, in order of claiming, each looked up by its path.
ghost use Rattle.std.specs.Prelude.{◌≡◌, ◌<◌, ℕ, List, [], ◌∷◌, length, IfOk, OnErr};
ghost use Rattle.unit_steps.specs.UnitView.{IsAsking, asked_by};
ghost use Rattle.indexmap.specs.IndexMap.{set_value_at};
ghost use Rattle.scan_core.specs.Claims.{IsClaim, Lacks};

use crate::reading::Reading;
use crate::seat::{Kept, Seat};
use indexmap::IndexMap;
use scan_model::{NoMemory, PathText};
use std::alloc::Global;
use std::mem;
use unit_scan::Unit;

/// The worker claims a path that has no row. Its row is the last, and has this place. `Err` is want of memory, and no row
/// more.
pub(crate) fn claim<R: Reading>(
    alloc: Global,
    rows: &mut IndexMap<Vec<u8>, Kept<R>>,
    worker: u32,
    path: &PathText,
) -> Result<usize, NoMemory>
    requires { Lacks rows.old.entries path.now }
    ensures ok { IfOk result (λ place. (place ≡ length rows.old.entries) × IsClaim rows.old.entries rows.new.entries path.now worker) }
    ensures err { OnErr result (rows.new.entries ≡ rows.old.entries) }
{
    let key = Vec::from_slice(alloc, path.as_slice())?;
    let place = rows.len();
    rows.insert(key, Kept::Claimed(worker))?;
    Ok(place)
}

/// The worker, which looks at a path that has no row, claims it, and is to read it. `Err` is want of memory, and no row
/// more.
pub(crate) fn claimed<'a, R: Reading>(
    alloc: Global,
    rows: &mut IndexMap<Vec<u8>, Kept<R>>,
    worker: u32,
    number: u32,
    unit: Unit<'a>,
) -> Result<Seat<'a, R>, NoMemory>
    requires asks { IsAsking unit.phase }
    requires lacks { (path : List ℕ) → asked_by unit.phase ≡ path ∷ [] → Lacks rows.old.entries path }
    ensures ok { IfOk result (λ seat. (seat ≡ Seat.Reads number unit.entry (length rows.old.entries)) × ((path : List ℕ) → asked_by unit.entry.phase ≡ path ∷ [] → IsClaim rows.old.entries rows.new.entries path worker)) }
    ensures err { OnErr result (rows.new.entries ≡ rows.old.entries) }
{
    let place = claim(alloc, rows, worker, unit.asked())?;
    Ok(Seat::Reads(number, unit, place))
}

/// The claimed row at this place is done, with this reading.
pub(crate) fn set_done<R: Reading>(rows: &mut IndexMap<Vec<u8>, Kept<R>>, place: usize, reading: R)
    requires { place < length rows.old.entries }
    ensures { rows.new.entries ≡ set_value_at rows.old.entries place (Kept.Done reading) }
{
    match rows.get_index_mut(place) {
        Some(kept) => {
            let _ = mem::replace(kept, Kept::Done(reading));
        }
        None => unreachable!(),
    }
}
