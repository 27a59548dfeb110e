ghost use Rattle.std.specs.Prelude.{◌≡◌, ◌<◌, ◌≤◌, ◌&&◌, [], ◌∷◌, Bool, true, false, Some, None, List, Option, IfOk, OnOk, IfSome, MatchOption, length, drop, slice_index_or, is_some};
ghost use Rattle.hide_sets.specs.Sets.{Sets};
ghost use Rattle.scan_model.specs.declared.token.Tok.{Tok};
ghost use Rattle.substitution.specs.Strings.{toks_of};
ghost use Rattle.scan_model.specs.TokenTests.{is_hash, is_paste, begins_with};
ghost use Rattle.scan_model.specs.Substitution as subst;
ghost use Rattle.substitution.specs.Meaning.{arg_of, IsArg};
ghost use Rattle.substitution.specs.Calls.{call_of, AreArgs, Adds, AddsString, GivesPart, comma_part_of, opt_after_hash, opt_comes, after_word};

use crate::call::{Call, PartEnd};
use crate::copies::{add_given, add_own, own};
use crate::fronts::begins_with_paste;
use crate::item::Item;
use crate::strings::string_of;
use crate::{Arg, Marked};
use hide_sets::HideSet;
use scan_model::{NoMemory, Tok};
use std::alloc::Global;

/// Whether the part that begins with the token is `__VA_OPT__` or `# __VA_OPT__`.
pub(crate) fn opt_comes(call: &Call, tok: &Tok, after: &[Tok]) -> bool
    ensures { (sets : Sets) → result ≡ opt_comes (call_of sets call.now) tok.now after.now }
{
    if is_hash_operator(call, tok) {
        return opt_after_hash(call, after);
    }
    !tok.is_paste() && comma_rule(call, tok, after).is_none() && call.is_variadic() && tok.is_opt()
}

/// Whether the token is the `#` of a function-like macro.
pub(crate) fn is_hash_operator(call: &Call, tok: &Tok) -> bool
    ensures { (sets : Sets) → result ≡ ((call_of sets call.now).function && is_hash tok.now) }
{
    call.is_function() && tok.is_hash()
}

fn opt_after_hash(call: &Call, after: &[Tok]) -> bool
    ensures { (sets : Sets) → result ≡ opt_after_hash (call_of sets call.now) after.now }
{
    !after.is_empty() && call.arg_at(&after[0]).is_none() && call.is_variadic() && after[0].is_opt()
}

/// The variable part, where the token and what follows it are `, ## V`.
fn comma_rule<'a>(call: &Call<'a, '_>, tok: &Tok, after: &[Tok]) -> Option<&'a Arg>
    ensures none { (sets : Sets) → is_some result ≡ is_some (subst.comma_part (call_of sets call.now) tok.now after.now) }
    ensures some { (sets : Sets) → IfSome result (λ a. (1 < length after.now) × (subst.comma_part (call_of sets call.now) tok.now after.now ≡ Some (comma_part_of (call_of sets call.now) tok.now after.now (arg_of sets a.now)))) }
    ensures known { (sets : Sets) → AreArgs sets call.now.args.now → IfSome result (λ a. IsArg sets a.now) }
{
    if after.len() < 2 || !tok.is_comma() || !after[0].is_paste() || !call.is_variable(&after[1]) {
        return None;
    }
    call.arg(after[1].text.as_slice())
}

/// Adds what a part of the list gives that has no `__VA_OPT__`. None exactly where it makes a bad string.
pub(crate) fn add_part<'a>(
    alloc: Global,
    items: &mut Vec<Item>,
    call: &Call,
    pasted: bool,
    tok: &Tok,
    after: &'a [Tok],
) -> Result<Option<PartEnd<'a>>, NoMemory>
    requires { (sets : Sets) → opt_comes (call_of sets call.now) tok.now after.now ≡ false }
    ensures shorter { IfOk result (λ end. IfSome end (λ end. length end.after.now ≤ length after.now)) }
    ensures value { IfOk result (λ end. (sets : Sets) → AreArgs sets call.now.args.now → (inner : List Tok → Option (List subst.Item)) → GivesPart sets items.old.items items.new.items (subst.one_part (call_of sets call.now) inner pasted tok.now after.now) end) }
{
    if is_hash_operator(call, tok) {
        return add_hash(alloc, items, call, tok, after);
    }
    if tok.is_paste() {
        items.push(Item::Paste(own(alloc, call, tok)?))?;
        return Ok(Some(PartEnd {
            pasted: true,
            after,
        }));
    }
    if let Some(arg) = comma_rule(call, tok, after) {
        let rest = &after[2..];
        add_comma(
            alloc,
            items,
            call,
            tok,
            &after[1],
            arg,
            begins_with_paste(rest),
        )?;
        return Ok(Some(PartEnd {
            pasted: false,
            after: rest,
        }));
    }
    add_plain(alloc, items, call, pasted, tok, after)
}

/// Adds what `#` makes of the parameter after it, or the `#` itself.
fn add_hash<'a>(
    alloc: Global,
    items: &mut Vec<Item>,
    call: &Call,
    tok: &Tok,
    after: &'a [Tok],
) -> Result<Option<PartEnd<'a>>, NoMemory>
    requires { (sets : Sets) → opt_after_hash (call_of sets call.now) after.now ≡ false }
    ensures shorter { IfOk result (λ end. IfSome end (λ end. length end.after.now ≤ length after.now)) }
    ensures value { IfOk result (λ end. (sets : Sets) → AreArgs sets call.now.args.now → (inner : List Tok → Option (List subst.Item)) → GivesPart sets items.old.items items.new.items (subst.hash_part (call_of sets call.now) inner tok.now after.now) end) }
{
    if after.is_empty() {
        add_own(alloc, items, call, tok)?;
        return Ok(Some(PartEnd {
            pasted: false,
            after,
        }));
    }
    match call.arg_at(&after[0]) {
        Some(arg) => {
            if !add_string(alloc, items, call, tok, arg.written.as_slice())? {
                return Ok(None);
            }
            Ok(Some(PartEnd {
                pasted: false,
                after: &after[1..],
            }))
        }
        None => {
            add_own(alloc, items, call, tok)?;
            Ok(Some(PartEnd {
                pasted: false,
                after,
            }))
        }
    }
}

/// Adds the string that `#`, the token, makes of the tokens; false where it is no one string, and nothing is added.
pub(crate) fn add_string(
    alloc: Global,
    items: &mut Vec<Item>,
    call: &Call,
    tok: &Tok,
    marked: &[Marked],
) -> Result<bool, NoMemory>
    ensures { IfOk result (λ made. (sets : Sets) → AddsString sets items.old.items items.new.items (subst.string_of (call_of sets call.now) tok.now (toks_of marked.now)) made) }
{
    match string_of(alloc, call.line, tok, marked)? {
        Some(string) => {
            items.push(Item::Operand(Marked {
                tok: string,
                hides: HideSet::empty(),
            }))?;
            Ok(true)
        }
        None => Ok(false),
    }
}

/// Adds what `, ## V` stands for: nothing for an empty V, else the comma and V as if there were no `##`.
fn add_comma(
    alloc: Global,
    items: &mut Vec<Item>,
    call: &Call,
    comma: &Tok,
    variable: &Tok,
    arg: &Arg,
    next_to_paste: bool,
) -> Result<(), NoMemory>
    ensures { OnOk result ((sets : Sets) → IsArg sets arg.now → Adds sets items.old.items items.new.items (subst.comma_items (call_of sets call.now) comma.now variable.now (arg_of sets arg.now) next_to_paste)) }
{
    if arg.written.as_slice().is_empty() {
        items.push(Item::Placemarker)?;
        return Ok(());
    }
    add_own(alloc, items, call, comma)?;
    add_given(alloc, items, variable, arg, next_to_paste)?;
    Ok(())
}

/// Adds a parameter's argument, or any other token as it is.
fn add_plain<'a>(
    alloc: Global,
    items: &mut Vec<Item>,
    call: &Call,
    pasted: bool,
    tok: &Tok,
    after: &'a [Tok],
) -> Result<Option<PartEnd<'a>>, NoMemory>
    ensures shorter { IfOk result (λ end. IfSome end (λ end. length end.after.now ≤ length after.now)) }
    ensures value { IfOk result (λ end. (sets : Sets) → AreArgs sets call.now.args.now → GivesPart sets items.old.items items.new.items (Some (subst.plain_part (call_of sets call.now) pasted tok.now after.now (subst.arg_at (call_of sets call.now) tok.now))) end) }
{
    match call.arg_at(tok) {
        Some(arg) => add_given(alloc, items, tok, arg, pasted || begins_with_paste(after))?,
        None => add_own(alloc, items, call, tok)?,
    }
    Ok(Some(PartEnd {
        pasted: false,
        after,
    }))
}

/// What follows the word of a `__VA_OPT__` or `# __VA_OPT__` that begins with the token.
pub(crate) fn after_word<'a>(call: &Call, tok: &Tok, after: &'a [Tok]) -> &'a [Tok]
    ensures shorter { length result.now ≤ length after.now }
    ensures value { (sets : Sets) → result.now ≡ after_word (call_of sets call.now) tok.now after.now }
{
    if is_hash_operator(call, tok) && !after.is_empty() {
        return &after[1..];
    }
    after
}
