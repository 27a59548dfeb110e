ghost use Rattle.std.specs.Prelude.{◌≡◌, ◌+◌, ◌<◌, IfOk, length};
ghost use Rattle.scan_model.specs.Expansion.{plain_args, variadic_args};
ghost use Rattle.expansion.specs.Cuts.{CutsInto, CutsArgs, empty_arg, filled};
ghost use Rattle.expansion.specs.States.{names_of};

use list_stack::ListStack;
use scan_model::{FunctionDef, Items, NoMemory};
use std::alloc::Global;
use substitution::{Arg, IndexedDef};

/// Cuts the list at work, which a call's parentheses enclose, into the call's arguments ([cpp.replace]). The answer is
/// how many there are; a variable part whose comma is missing isn't counted. None where their number is wrong, and then
/// nothing is said of the stack.
pub(crate) fn cut_args(
    todo: &mut ListStack,
    definition: &FunctionDef,
) -> Result<Option<usize>, NoMemory>
    requires { 0 < length todo.old.others }
    ensures { IfOk result (CutsArgs definition.now todo.old todo.new) }
{
    let count = definition.params.as_slice().len();
    if definition.variadic.is_some() {
        return cut_variadic(todo, count);
    }
    if count == 0 {
        return Ok(cut_nothing(todo));
    }
    cut_plain(todo, count)
}

/// No argument, for no parameter: there are no tokens.
fn cut_nothing(todo: &mut ListStack) -> Option<usize>
    requires { 0 < length todo.old.others }
    ensures { CutsInto (plain_args 0) 0 todo.old todo.new result }
{
    if !todo.is_empty_list() {
        return None;
    }
    todo.end_list();
    Some(0)
}

/// One argument for each of so many parameters.
fn cut_plain(todo: &mut ListStack, count: usize) -> Result<Option<usize>, NoMemory>
    requires { 0 < count }
    ensures { IfOk result (CutsInto (plain_args count) count todo.old todo.new) }
{
    let found = todo.cut(count)?;
    if found == count {
        return Ok(Some(found));
    }
    Ok(None)
}

/// The same, and then the variable part, whose comma may be missing; its own commas cut nothing.
fn cut_variadic(todo: &mut ListStack, count: usize) -> Result<Option<usize>, NoMemory>
    ensures { IfOk result (CutsInto (variadic_args count) (count + 1) todo.old todo.new) }
{
    let found = todo.cut(count)?;
    if found < count {
        return Ok(None);
    }
    Ok(Some(found))
}

/// The arguments, with one of no tokens for a variable part whose comma is missing.
pub(crate) fn all_args(
    alloc: Global,
    definition: &IndexedDef,
    args: Vec<Arg>,
) -> Result<Vec<Arg>, NoMemory>
    ensures { IfOk result (λ all. all.items ≡ filled empty_arg (length (names_of definition.now)) args.items) }
{
    let mut args = args;
    if args.len() < definition.parameter_count() {
        args.push(Arg {
            written: Items::of_vec(Vec::new(alloc)),
            replaced: None,
        })?;
    }
    Ok(args)
}
