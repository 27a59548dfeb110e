ghost use Rattle.std.specs.Prelude.{◌≡◌, ℕ, ◌≤◌, [], ◌∷◌, false, length, IfOk};
ghost use Rattle.substitution.specs.declared.item.Item.TheVariants.{Placemarker};
ghost use Rattle.hide_sets.specs.Sets.{Extends};
ghost use Rattle.scan_model.specs.Substitution as subst;
ghost use Rattle.substitution.specs.Meaning.{GivesItems};
ghost use Rattle.substitution.specs.Calls.{call_of, AreArgs};

use crate::call::Call;
use crate::item::Item;
use crate::joins::joined;
use crate::optional::add_opt;
use crate::parens::in_parens;
use crate::parts::{add_part, after_word, is_hash_operator, opt_comes};
use hide_sets::HideSets;
use scan_model::{NoMemory, Tok};
use std::alloc::Global;

/// The items of a replacement list, each `##` still there. None exactly where a join or a string is bad.
///
/// The content of `__VA_OPT__` is one more list, treated by a call of this function. A definition holds no
/// `__VA_OPT__` inside another, so no call goes deeper than that.
pub(crate) fn list_items(
    alloc: Global,
    sets: &mut HideSets,
    call: &Call,
    list: &[Tok],
) -> Result<Option<Vec<Item>>, NoMemory>
    requires { AreArgs sets.old call.now.args.now }
    ensures extended { Extends sets.old sets.new }
    ensures value { IfOk result (λ items. (n : ℕ) → length list.now ≤ n → GivesItems sets.new (subst.items_up_to n (call_of sets.old call.now) false list.now) items) }
{
    let mut items = Vec::new(alloc);
    let mut rest = list;
    let mut pasted = false;
    'parts: while !rest.is_empty() {
        let tok = &rest[0];
        let after = &rest[1..];
        if !opt_comes(call, tok, after) {
            let Some(end) = add_part(alloc, &mut items, call, pasted, tok, after)? else {
                return Ok(None);
            };
            pasted = end.pasted;
            rest = end.after;
            continue;
        }
        let Some(opt) = in_parens(after_word(call, tok, after)) else {
            return Ok(Some(items));
        };
        let hashed = is_hash_operator(call, tok);
        if !call.has_variable() {
            if !add_opt(alloc, &mut items, call, hashed, tok, placemarker(alloc)?)? {
                return Ok(None);
            }
            pasted = false;
            rest = opt.after;
            continue;
        }
        let Some(inner) = list_items(alloc, sets, call, opt.inside)? else {
            return Ok(None);
        };
        let Some(content) = joined(alloc, sets, inner)? else {
            return Ok(None);
        };
        if !add_opt(alloc, &mut items, call, hashed, tok, content)? {
            return Ok(None);
        }
        pasted = false;
        rest = opt.after;
    }
    Ok(Some(items))
}

fn placemarker(alloc: Global) -> Result<Vec<Item>, NoMemory>
    ensures { IfOk result (λ items. items.items ≡ Placemarker ∷ []) }
{
    let mut items = Vec::new(alloc);
    items.push(Item::Placemarker)?;
    Ok(items)
}
