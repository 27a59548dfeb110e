ghost use Rattle.std.specs.Prelude.{◌≡◌, [], ◌∷◌, IfOk, slice_get, option_copied};
ghost use Rattle.scan_model.specs.Paths.{normal};
ghost use Rattle.scan_model.specs.Candidates.{candidates, folders};
ghost use Rattle.path_search.specs.Lists.{chained};

use crate::segments::is_absolute;
use crate::{join, normal};
use scan_model::{Form, Items, NoMemory, PathText, SearchList};
use std::alloc::Global;
use std::slice;

// The folder of this number, from 0, in one list after another.
#[tactic(auto, using(crate::proofs::CandidateLemmas::chained_here, crate::proofs::CandidateLemmas::chained_later))]
fn nth_of<'a>(lists: &[&'a [PathText]], k: u64) -> Option<&'a PathText>
    ensures { option_copied result ≡ slice_get (chained lists.now) k }
{
    let mut left = k as usize;
    'lists: for list in lists {
        if left < list.len() {
            return Some(&list[left]);
        }
        left -= list.len();
    }
    None
}

fn nth_folder<'a>(
    list: &'a SearchList,
    program: &'a [PathText],
    form: Form,
    from: &'a PathText,
    k: u32,
) -> Option<&'a PathText>
    ensures { option_copied result ≡ slice_get (folders list.now program.now form from.now) k }
{
    let lists = [
        slice::from_ref(from),
        list.quote.as_slice(),
        list.angled.as_slice(),
        list.system.as_slice(),
        program,
        list.after.as_slice(),
    ];
    match form {
        Form::Quoted => nth_of(&lists, k as u64),
        Form::Angled => nth_of(&lists[2..], k as u64),
        Form::Next(n) => nth_of(&lists[1..], n as u64 + k as u64),
    }
}

// The path of an absolute name, which is the only one.
fn alone(alloc: Global, name: &[u8], k: u32) -> Result<Option<PathText>, NoMemory>
    ensures { IfOk result (λ path. path ≡ slice_get (normal name.now ∷ []) k) }
{
    if k == 0 {
        Ok(Some(normal(alloc, name)?))
    } else {
        Ok(None)
    }
}

/// The path of this number, from 0, at which a header's name is looked for, and None past the last one
/// ([cpp.include]).
///
/// A name that begins with `/` is looked for by itself alone. Another one is looked for below each folder of `-I`, of
/// `-isystem`, of the program and of `-idirafter`, in this order; a quoted one first below `from`, the including file's
/// folder, and below each folder of `-iquote`. In the form `Next(n)` it is looked for below the folders of the chain from
/// the number n on, from 0: those of `-iquote`, and then the others. `Err` is want of memory.
#[tactic(auto, using(crate::proofs::CandidateLemmas::candidates_alone, crate::proofs::CandidateLemmas::candidates_below))]
pub fn candidate(
    alloc: Global,
    list: &SearchList,
    program: &Items<PathText>,
    form: Form,
    from: &PathText,
    name: &[u8],
    k: u32,
) -> Result<Option<PathText>, NoMemory>
    ensures { IfOk result (λ path. path ≡ slice_get (candidates list.now program.now form from.now name.now) k) }
{
    if is_absolute(name) {
        return alone(alloc, name, k);
    }
    match nth_folder(list, program.as_slice(), form, from, k) {
        None => Ok(None),
        Some(folder) => Ok(Some(join(alloc, folder, name)?)),
    }
}
