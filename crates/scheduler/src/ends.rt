ghost use Rattle.std.specs.Prelude.{◌≡◌, Some, All, IfOk, IsSome, map};

use scan_model::{Items, NoMemory, UnitEnd};
use std::alloc::Global;

/// The ends, where each place has one.
pub(crate) fn gathered(
    alloc: Global,
    ends: Vec<Option<UnitEnd>>,
) -> Result<Items<UnitEnd>, NoMemory>
    requires { All (λ end. IsSome end) ends.items }
    ensures { IfOk result (λ gathered. map Some gathered ≡ ends.items) }
{
    let mut gathered = Vec::with_capacity(alloc, ends.len())?;
    let mut left = ends;
    left.reverse();
    'places: while let Some(place) = left.pop() {
        match place {
            Some(end) => gathered.push_reserved(end),
            None => unreachable!(),
        }
    }
    Ok(Items::of_vec(gathered))
}
