ghost use Rattle.std.specs.Prelude.{◌≡◌, IfOk, IfSome, is_some};
ghost use Rattle.scan_model.specs.MacroDefinition.{all_params, are_distinct};
ghost use Rattle.scan_model.specs.TokenTests.{is_among};
ghost use Rattle.macro_table.specs.Heads.{texts};
ghost use Rattle.macro_table.specs.Names.{has_name};

use crate::head::Head;
use scan_model::NoMemory;
use std::alloc::Global;
use std::collections::HashSet;

/// All names of a parameter list, and last that of the variable part.
pub(crate) fn all_names<'a>(alloc: Global, head: &Head<'a>) -> Result<Vec<&'a [u8]>, NoMemory>
    ensures { IfOk result (λ names. texts names.items ≡ all_params head.now.params head.now.variadic) }
{
    let mut names = Vec::from_slice(alloc, head.params.as_slice())?;
    if let Some(name) = head.variadic {
        names.push(name)?;
    }
    Ok(names)
}

/// The set of the names. None exactly where one of them stands twice.
pub(crate) fn distinct_names<'a>(
    alloc: Global,
    names: &[&'a [u8]],
) -> Result<Option<HashSet<&'a [u8]>>, NoMemory>
    ensures distinct { IfOk result (λ set. is_some set ≡ are_distinct (texts names.now)) }
    ensures names { IfOk result (λ set. IfSome set (λ set. has_name set.keys ≡ is_among (texts names.now))) }
{
    let mut set = HashSet::new(alloc);
    for name in names {
        if !set.insert(*name)? {
            return Ok(None);
        }
    }
    Ok(Some(set))
}
