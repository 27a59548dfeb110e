ghost use Rattle.std.specs.Prelude.{◌≡◌, ◌≤◌, ◌<◌, length};
ghost use Rattle.std.specs.Vec.{vec_capacity};
ghost use Rattle.scan_core.specs.Events.{want_of, core_wants, IsReachedCore};
ghost use Rattle.scheduler.specs.Schedule.{can_move, chosen, movers};

use scan_core::{Core, Reading, Want};

/// The worker that makes the next step; None where none can move. Each worker is asked once. The list has room for all
/// workers, and is left with those that can move.
pub(crate) fn chosen_mover<R: Reading>(
    core: &Core<'_, R>,
    workers: u32,
    number: u32,
    list: &mut Vec<u32>,
) -> Option<u32>
    requires workers { workers ≡ length core.now.machine.workers }
    requires room { workers ≤ vec_capacity list.old }
    ensures chosen { result ≡ chosen (movers core.now.jobs core.now.settings core.now.machine) number }
    ensures room { workers ≤ vec_capacity list.new }
{
    list_movers(core, workers, list);
    let count = list.len();
    if count == 0 {
        return None;
    }
    Some(list[number as usize / 65536 % count])
}

// Lists the workers that can move, in order of number.
fn list_movers<R: Reading>(core: &Core<'_, R>, workers: u32, list: &mut Vec<u32>)
    requires workers { workers ≡ length core.now.machine.workers }
    requires room { workers ≤ vec_capacity list.old }
    ensures movers { list.new.items ≡ movers core.now.jobs core.now.settings core.now.machine }
    ensures room { workers ≤ vec_capacity list.new }
{
    list.clear();
    let mut worker = 0;
    'workers: while worker < workers {
        if can_move(core.wants(worker)) {
            list.push_reserved(worker);
        }
        worker += 1;
    }
}

fn can_move(want: Want) -> bool
    ensures { result ≡ can_move (want_of want) }
{
    !matches!(want, Want::Wait | Want::Over)
}
