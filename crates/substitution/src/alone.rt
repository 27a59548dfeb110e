ghost use Rattle.std.specs.Prelude.{◌≡◌, ℕ, not, ◌&&◌, ◌||◌, List, [], IfOk};
ghost use Rattle.scan_model.specs.TokenTests.{is_hash, is_paste, is_comma, begins_with};
ghost use Rattle.scan_model.specs.Substitution.{is_variable_part, stands_alone, is_replaced};
ghost use Rattle.substitution.specs.Places.{has_name};

use crate::fronts::{begins_with_comma, begins_with_hash, begins_with_paste};
use crate::names::add_name;
use scan_model::{FunctionDef, NoMemory, Tok, has_opt};
use std::alloc::Global;
use std::collections::HashSet;

/// Whether a replacement needs the argument of the parameter of this name replaced by itself ([cpp.subst]), found by a walk
/// over the list.
#[tactic(auto, unfolding(scan_model::specs::Substitution::is_replaced))]
pub(crate) fn is_replaced(definition: &FunctionDef, name: &[u8]) -> bool
    ensures { result ≡ is_replaced definition.now name.now }
{
    let variable = is_variable_part(definition, name);
    let body = definition.body.as_slice();
    stands_alone(variable, name, body) || (variable && has_opt(body))
}

pub(crate) fn is_variable_part(definition: &FunctionDef, name: &[u8]) -> bool
    ensures { result ≡ is_variable_part definition.now.variadic name.now }
{
    match &definition.variadic {
        Some(variadic) => variadic.as_slice() == name,
        None => false,
    }
}

fn stands_alone(variable: bool, name: &[u8], body: &[Tok]) -> bool
    ensures { result ≡ stands_alone variable name.now [] [] body.now }
{
    let mut before = &body[..0];
    let mut last = before;
    'toks: for i in 0..body.len() {
        if body[i].is_named(name) && is_alone(variable, before, last, &body[i + 1..]) {
            return true;
        }
        before = last;
        last = &body[i..i + 1];
    }
    false
}

/// The names that stand somewhere in the list alone, each by the test of a parameter of this name.
pub(crate) fn names_alone<'a>(
    alloc: Global,
    definition: &'a FunctionDef,
) -> Result<HashSet<&'a [u8]>, NoMemory>
    ensures { IfOk result (λ names. (q : List ℕ) → has_name names.keys q ≡ stands_alone (is_variable_part definition.now.variadic q) q [] [] definition.now.body) }
{
    let body = definition.body.as_slice();
    let mut names = HashSet::new(alloc);
    let mut before = &body[..0];
    let mut last = before;
    'toks: for i in 0..body.len() {
        let tok = &body[i];
        let variable = is_variable_part(definition, tok.text.as_slice());
        let alone = is_alone(variable, before, last, &body[i + 1..]);
        add_name(&mut names, tok, alone)?;
        before = last;
        last = &body[i..i + 1];
    }
    Ok(names)
}

/// Whether a parameter between these tokens stands alone: `last` holds the token right before it, and `before` the one
/// before that.
fn is_alone(variable: bool, before: &[Tok], last: &[Tok], after: &[Tok]) -> bool
    ensures { result ≡ (not (begins_with is_hash last.now) && ((not (begins_with is_paste last.now) || (variable && begins_with is_comma before.now)) && not (begins_with is_paste after.now))) }
{
    !begins_with_hash(last)
        && (!begins_with_paste(last) || (variable && begins_with_comma(before)))
        && !begins_with_paste(after)
}
