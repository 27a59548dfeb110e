ghost use Rattle.std.specs.Prelude.{◌≡◌, ◌&&◌, ◌||◌, ℕ, List, OnOk};
ghost use Rattle.scan_model.specs.TokenTests.{is_named};
ghost use Rattle.substitution.specs.Places.{has_name};

use scan_model::{NoMemory, Tok};
use std::collections::HashSet;

/// Adds the token's name, where it has one and it is wanted.
pub(crate) fn add_name<'a>(
    names: &mut HashSet<&'a [u8]>,
    tok: &'a Tok,
    wanted: bool,
) -> Result<(), NoMemory>
    ensures { OnOk result ((q : List ℕ) → has_name names.new.keys q ≡ ((is_named q tok.now && wanted) || has_name names.old.keys q)) }
{
    if !wanted || !tok.is_ident() {
        return Ok(());
    }
    names.insert(tok.text.as_slice())?;
    Ok(())
}
