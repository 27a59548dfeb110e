ghost use Rattle.std.specs.Prelude.{◌<◌, ◌-◌, ◌^◌};
ghost use Rattle.scanner.specs.Statuses.{number};
ghost use Rattle.scanner.specs.Sinks.{put_to};
ghost use Rattle.scanner.specs.Run.{IsRefusedOr};

use crate::printing::{put, tell_no_memory};
use crate::refusal::Refusal;
use crate::status::Status;
use file_source::Sink;
use scan_model::NoMemory;
use std::alloc::Global;

/// Tells the error output why no command is scanned.
pub(crate) fn refuse<E: Sink>(alloc: Global, refusal: Refusal, err: &mut E) -> Status
    requires { E.faults err.old < 2 ^ 64 - 1 }
    ensures { IsRefusedOr refusal (put_to E.held E.faults E.puts err.old err.new) (number result) }
{
    match refusal.text(alloc) {
        Ok(text) => {
            let _ = put(text.as_bytes(), err);
            refusal.status()
        }
        Err(NoMemory) => tell_no_memory(err),
    }
}
