//! Reading an open file to its end.
ghost use Rattle.std.specs.Prelude.{◌≡◌, ◌+◌, ◌≤◌, List, ℕ, Option};
ghost use Rattle.scan_model.specs.Limits.{file_limit};
ghost use Rattle.file_source.specs.CameOf.{IsCaused, IsRead, cut_off_as};

use crate::counted_reader::CountedReader;
use crate::given::Came;
use scan_model::{Bytes, FILE_LIMIT};
use std::alloc::Global;
use std::io::{ErrorKind, Read};

// Each turn takes at least one byte, so that more turns would read too many bytes.
const READ_TURNS: usize = FILE_LIMIT + 1;

// What an error stands for after so many bytes have come.
fn cut_off(kind: ErrorKind, came: usize) -> Came
    ensures value { result ≡ cut_off_as kind came }
    ensures caused { IsCaused result }
    ensures cut { (left : Option (List ℕ)) → IsRead left result }
{
    match kind {
        ErrorKind::OutOfMemory => Came::NoMemory(came),
        _ => Came::Failed(came),
    }
}

/// The rest of an open file, or what comes of it up to the first byte too many.
pub(crate) fn read_all<R: Read + Drop>(alloc: Global, file: &mut CountedReader<R>) -> Came
    requires { file.old.turns ≡ 0 }
    ensures caused { IsCaused result }
    ensures read { IsRead (R.remaining file.old.reader) result }
    ensures turns { file.new.turns ≤ file_limit + 1 }
{
    let mut bytes = Vec::new(alloc);
    let mut chunk = [0u8; 4096];
    for _turn in 0..READ_TURNS {
        match file.read(&mut chunk) {
            Ok(0) => return Came::Present(Bytes::of_vec(bytes)),
            Ok(n) => {
                let came = bytes.len() + n;
                if came > FILE_LIMIT {
                    return Came::Big(came);
                }
                if bytes.extend_from_slice(&chunk[..n]).is_err() {
                    return Came::NoMemory(came);
                }
            }
            Err(error) => return cut_off(error.kind(), bytes.len()),
        }
    }
    Came::Big(bytes.len())
}
