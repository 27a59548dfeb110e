ghost use Rattle.std.specs.Prelude.{◌≡◌, ◌<◌, ℕ, List, length};
ghost use Rattle.scan_model.specs.Candidates.{candidates, chain, place};

use crate::segments::is_absolute;
use scan_model::{Form, Items, PathText, SearchList};

/// The place in the chain that the candidate of this number gives the file that is found there: one more than the number
/// of its folder among those of `-iquote`, `-I`, `-isystem`, the program and `-idirafter`. None exactly where the name is
/// absolute, or the folder is the including file's. There is such a candidate, and the chain has fewer than 4,294,967,295
/// folders, so that the place fits.
pub fn place(
    list: &SearchList,
    program: &Items<PathText>,
    form: Form,
    name: &[u8],
    k: u32,
) -> Option<u32>
    requires there { (from : List ℕ) → k < length (candidates list.now program.now form from name.now) }
    requires few { length (chain list.now program.now) < 4294967295 }
    ensures { result ≡ place list.now form name.now k }
{
    if is_absolute(name) {
        return None;
    }
    match form {
        Form::Quoted => { if k == 0 { None } else { Some(k) } }
        Form::Angled => Some(list.quote.as_slice().len() as u32 + k + 1),
        Form::Next(n) => Some(n + k + 1),
    }
}
