//! One step of one worker, over the store.

ghost use Rattle.std.specs.Prelude.{◌≡◌, ◌⊎◌, ◌<◌, true, OnOk, OnErr, IfOk, length, slice_set};
ghost use Rattle.cache_machine.specs.Steps.{Read, act};
ghost use Rattle.cache_machine.specs.Wants.{Read_wanted};
ghost use Rattle.shard_cache.specs.Rows.{change_at, asked_also, shard_number, row_content, IsRow, IsStore, LacksPath};
ghost use Rattle.shard_cache.specs.StoreRun.{IsGivenRow};
ghost use Rattle.scan_core.specs.Events.{event_of, core_wants, IsReachedCore, IsSameScan, IsWanted};
ghost use Rattle.scheduler.specs.Schedule.{can_move};
ghost use Rattle.scheduler.specs.Moments.{HasMoved};
ghost use Rattle.scheduler.specs.Moving.{PlacesFit, HasStepped, WantsToPublish, HasFound, HasRead, HasPassed, HasPublished};

use crate::known::known;
use crate::reading::reading;
use crate::told::Told;
use file_source::Source;
use scan_core::{Core, Event, Want};
use scan_model::{NoMemory, PathText};
use shard_cache::{KeptRow, Store};
use std::alloc::Global;
use std::mem;

/// The worker makes its step. Where memory is wanting for its job alone, the job is out of memory. `Err` is want of memory
/// for the run as a whole, and leaves the store as it was.
pub(crate) fn step<S: Source>(
    alloc: Global,
    core: &mut Core<'_, Told>,
    worker: u32,
    held: &mut Vec<Option<KeptRow<S>>>,
    store: &mut Store<S>,
) -> Result<(), NoMemory>
    requires inside { worker < length core.old.machine.workers }
    requires places { length held.old.items ≡ length core.old.machine.workers }
    requires mover { can_move (core_wants core.old worker) ≡ true }
    requires reached { IsReachedCore core.old }
    requires fit { PlacesFit S.given_path S.given_outcome S.given_bytes core.old.jobs core.old.settings core.old.machine held.old.items store.old }
    ensures stepped { OnOk result (HasStepped S.given_path S.given_origin S.given_outcome S.given_bytes core.old.jobs core.old.settings worker
        (record { machine = core.old.machine; held = held.old.items; store = store.old })
        (record { machine = core.new.machine; held = held.new.items; store = store.new })) }
    ensures left { OnOk result (core.new.left < core.old.left) }
    ensures scan { OnOk result (IsSameScan core.old core.new) }
    ensures reached { OnOk result (IsReachedCore core.new) }
    ensures places { OnOk result (length held.new.items ≡ length held.old.items) }
    ensures err { OnErr result (store.new ≡ store.old) }
{
    match core.wants(worker) {
        Want::Draw => advance(alloc, core, Event::Draw(worker)),
        Want::Look => advance(alloc, core, Event::Look(worker)),
        Want::Read => return read(alloc, core, worker, held, store),
        Want::Publish => return publish(alloc, core, worker, held, store),
        Want::End => advance(alloc, core, Event::End(worker)),
        Want::Wait | Want::Over => unreachable!(),
    }
    Ok(())
}

fn advance(alloc: Global, core: &mut Core<'_, Told>, event: Event<Told>)
    requires { IsWanted core.old (event_of (λ told. told) event) }
    ensures moved { HasMoved core.old.jobs core.old.settings (event_of (λ told. told) event) core.old.machine core.new.machine }
    ensures left { core.new.left < core.old.left }
    ensures scan { IsSameScan core.old core.new }
    ensures reached { IsReachedCore core.new }
{
    let _ = core.step(alloc, event);
}

// Tells the core of the path that the worker claimed: what the store's row of it stands for or, where the store has none,
// what its read gives.
fn read<S: Source>(
    alloc: Global,
    core: &mut Core<'_, Told>,
    worker: u32,
    held: &mut Vec<Option<KeptRow<S>>>,
    store: &mut Store<S>,
) -> Result<(), NoMemory>
    requires inside { worker < length core.old.machine.workers }
    requires places { worker < length held.old.items }
    requires wanted { core_wants core.old worker ≡ Read_wanted }
    ensures read { OnOk result (HasFound S.given_path S.given_outcome S.given_bytes core.old.jobs core.old.settings worker
        (record { machine = core.old.machine; held = held.old.items; store = store.old })
        (record { machine = core.new.machine; held = held.new.items; store = store.new })
        ⊎ HasRead S.given_path S.given_origin S.given_outcome S.given_bytes core.old.jobs core.old.settings worker
        (record { machine = core.old.machine; held = held.old.items; store = store.old })
        (record { machine = core.new.machine; held = held.new.items; store = store.new })) }
    ensures left { OnOk result (core.new.left < core.old.left) }
    ensures scan { OnOk result (IsSameScan core.old core.new) }
    ensures reached { OnOk result (IsReachedCore core.new) }
    ensures places { OnOk result (length held.new.items ≡ length held.old.items) }
    ensures err { OnErr result (store.new ≡ store.old) }
{
    let path = core.wanted(worker);
    if let Some(told) = known(path, store)? {
        hold(alloc, core, worker, held, None, told);
        return Ok(());
    }
    let (row, told) = read_path(alloc, path, store)?;
    hold(alloc, core, worker, held, Some(row), told);
    Ok(())
}

// What the read of the path gives: its row, and what units are told of it.
fn read_path<S: Source>(
    alloc: Global,
    path: &PathText,
    store: &mut Store<S>,
) -> Result<(KeptRow<S>, Told), NoMemory>
    requires { LacksPath store.old path.now }
    ensures path { IfOk result (λ r. r.0.path ≡ path.now) }
    ensures told { IfOk result (λ r. r.1 ≡ row_content S.given_outcome S.given_bytes r.0) }
    ensures fits { IfOk result (λ r. IsRow S.given_path S.given_outcome S.given_bytes r.0) }
    ensures given { IfOk result (λ r. IsGivenRow S.given_path S.given_origin store.old r.0) }
    ensures ok { OnOk result (store.new ≡ change_at (asked_also path.now) (shard_number path.now) store.old) }
    ensures valid { OnOk result (IsStore (λ row. IsRow S.given_path S.given_outcome S.given_bytes row) store.new) }
    ensures err { OnErr result (store.new ≡ store.old) }
{
    let path = path.copy(alloc)?;
    let opener = store.ask(alloc, &path)?;
    let given = S::read(alloc, opener);
    let (told, reduced) = reading(alloc, S::outcome(&given), S::bytes(&given));
    Ok((
        KeptRow {
            path,
            given,
            reduced,
        },
        told,
    ))
}

// Tells the core of the path that the worker claimed, and keeps its row, if it is to be added, in the worker's place.
fn hold<S: Source>(
    alloc: Global,
    core: &mut Core<'_, Told>,
    worker: u32,
    held: &mut Vec<Option<KeptRow<S>>>,
    row: Option<KeptRow<S>>,
    told: Told,
)
    requires places { worker < length held.old.items }
    requires wanted { core_wants core.old worker ≡ Read_wanted }
    ensures machine { core.new.machine ≡ act core.old.jobs core.old.settings core.old.machine (Read worker told) }
    ensures left { core.new.left < core.old.left }
    ensures scan { IsSameScan core.old core.new }
    ensures reached { IsReachedCore core.new }
    ensures held { held.new.items ≡ slice_set held.old.items worker row }
    ensures places { length held.new.items ≡ length held.old.items }
{
    let _ = mem::replace(&mut held[worker as usize], row);
    advance(alloc, core, Event::Read(worker, told));
}

// Adds the row in the worker's place to the store, if there is one.
fn publish<S: Source>(
    alloc: Global,
    core: &mut Core<'_, Told>,
    worker: u32,
    held: &mut Vec<Option<KeptRow<S>>>,
    store: &mut Store<S>,
) -> Result<(), NoMemory>
    requires places { worker < length held.old.items }
    requires wanted { WantsToPublish S.given_path S.given_outcome S.given_bytes core.old.jobs core.old.settings core.old.machine worker held.old.items store.old }
    ensures published { OnOk result (HasPassed core.old.jobs core.old.settings worker
        (record { machine = core.old.machine; held = held.old.items; store = store.old })
        (record { machine = core.new.machine; held = held.new.items; store = store.new })
        ⊎ HasPublished S.given_path S.given_outcome S.given_bytes core.old.jobs core.old.settings worker
        (record { machine = core.old.machine; held = held.old.items; store = store.old })
        (record { machine = core.new.machine; held = held.new.items; store = store.new })) }
    ensures left { OnOk result (core.new.left < core.old.left) }
    ensures scan { OnOk result (IsSameScan core.old core.new) }
    ensures reached { OnOk result (IsReachedCore core.new) }
    ensures places { OnOk result (length held.new.items ≡ length held.old.items) }
    ensures err { OnErr result (store.new ≡ store.old) }
{
    let Some(row) = mem::replace(&mut held[worker as usize], None) else {
        advance(alloc, core, Event::Publish(worker));
        return Ok(());
    };
    match store.add(row) {
        Ok(()) => advance(alloc, core, Event::Publish(worker)),
        Err(_) => return Err(NoMemory),
    }
    Ok(())
}
