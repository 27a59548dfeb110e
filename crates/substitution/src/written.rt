ghost use Rattle.std.specs.Prelude.{◌≡◌, ℕ, List, [], IfOk};
ghost use Rattle.substitution.specs.Places.{has_name};
ghost use Rattle.substitution.specs.Written.{is_operand, stands_as_operand, is_taken_as_written};

use crate::fronts::{begins_with_hash, begins_with_paste};
use crate::names::add_name;
use scan_model::{FunctionDef, NoMemory, Tok};
use std::alloc::Global;
use std::collections::HashSet;

/// Whether a replacement may take the argument of the parameter of this name as it is written ([cpp.stringize],
/// [cpp.concat]), found by a walk over the list.
pub(crate) fn is_taken_as_written(definition: &FunctionDef, name: &[u8]) -> bool
    ensures { result ≡ is_taken_as_written definition.now name.now }
{
    stands_as_operand(name, definition.body.as_slice())
}

fn stands_as_operand(name: &[u8], body: &[Tok]) -> bool
    ensures { result ≡ stands_as_operand name.now [] body.now }
{
    let mut last = &body[..0];
    'toks: for i in 0..body.len() {
        if body[i].is_named(name) && is_operand(last, &body[i + 1..]) {
            return true;
        }
        last = &body[i..i + 1];
    }
    false
}

/// The names that stand somewhere in the list as operands.
pub(crate) fn names_of_operands<'a>(
    alloc: Global,
    definition: &'a FunctionDef,
) -> Result<HashSet<&'a [u8]>, NoMemory>
    ensures { IfOk result (λ names. (q : List ℕ) → has_name names.keys q ≡ stands_as_operand q [] definition.now.body) }
{
    let body = definition.body.as_slice();
    let mut names = HashSet::new(alloc);
    let mut last = &body[..0];
    'toks: for i in 0..body.len() {
        let operand = is_operand(last, &body[i + 1..]);
        add_name(&mut names, &body[i], operand)?;
        last = &body[i..i + 1];
    }
    Ok(names)
}

/// Whether what stands between these tokens is an operand of `#` or `##`; `last` holds the token right before it.
fn is_operand(last: &[Tok], after: &[Tok]) -> bool
    ensures { result ≡ is_operand last.now after.now }
{
    begins_with_hash(last) || begins_with_paste(last) || begins_with_paste(after)
}
