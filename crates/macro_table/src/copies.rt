ghost use Rattle.std.specs.Prelude.{◌≡◌, IfOk};
ghost use Rattle.macro_table.specs.Heads.{texts};

use scan_model::{Bytes, Items, NoMemory, Tok};
use std::alloc::Global;

/// The same tokens, with spellings in memory of their own.
pub(crate) fn copied_tokens(alloc: Global, toks: &[Tok]) -> Result<Items<Tok>, NoMemory>
    ensures { IfOk result (λ copies. copies ≡ toks.now) }
{
    let mut copies = Vec::with_capacity(alloc, toks.len())?;
    for tok in toks {
        copies.push(tok.copy(alloc)?)?;
    }
    Ok(Items::of_vec(copies))
}

/// The names in memory of their own.
pub(crate) fn copied_names(alloc: Global, names: &[&[u8]]) -> Result<Items<Bytes>, NoMemory>
    ensures { IfOk result (λ copies. copies ≡ texts names.now) }
{
    let mut copies = Vec::with_capacity(alloc, names.len())?;
    for name in names {
        copies.push(Bytes::copy(alloc, *name)?)?;
    }
    Ok(Items::of_vec(copies))
}
