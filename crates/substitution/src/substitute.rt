ghost use Rattle.std.specs.Prelude.{◌≡◌, IfOk};
ghost use Rattle.hide_sets.specs.Sets.{Sets, Extends};
ghost use Rattle.scan_model.specs.Substitution as spec;
ghost use Rattle.substitution.specs.Meaning.{items_of, all_marked_of, AreItems, AreMarked, GivesMarked};
ghost use Rattle.substitution.specs.Calls.{object_call, function_call, call_of, AreArgs};

use crate::call::Call;
use crate::item::Item;
use crate::joins::joined;
use crate::lists::list_items;
use crate::optional::without_placemarkers;
use crate::{Arg, IndexedDef, Marked};
use hide_sets::HideSets;
use scan_model::{Items, NoMemory, Tok};
use std::alloc::Global;

/// The list that an object-like macro of this replacement list puts in for a name ([cpp.concat]). None exactly where a
/// `##` joins two tokens that make none together. The hide sets of before mean what they meant, also where memory ends.
pub fn substitute_object(
    alloc: Global,
    sets: &mut HideSets,
    body: &[Tok],
    name: &Tok,
) -> Result<Option<Items<Marked>>, NoMemory>
    ensures extended { Extends sets.old sets.new }
    ensures value { IfOk result (GivesMarked sets.new (spec.subst (object_call name.now.line) name.now.space body.now)) }
{
    let call = Call {
        definition: None,
        args: &[],
        line: name.line,
    };
    put_in(alloc, sets, &call, name.space, body)
}

/// The list that a call of a function-like macro puts in for its name ([cpp.subst], [cpp.stringize], [cpp.concat]), with
/// one argument for each parameter, the variable part's last. None exactly where a `##` joins two tokens that make none
/// together, or a `#` makes no one string. The hide sets of before mean what they meant, also where memory ends.
pub fn substitute_function(
    alloc: Global,
    sets: &mut HideSets,
    definition: &IndexedDef,
    args: &[Arg],
    name: &Tok,
) -> Result<Option<Items<Marked>>, NoMemory>
    requires { AreArgs sets.old args.now }
    ensures extended { Extends sets.old sets.new }
    ensures value { IfOk result (GivesMarked sets.new (spec.subst (function_call sets.old definition.now args.now name.now.line) name.now.space definition.now.body)) }
{
    let call = Call {
        definition: Some(definition),
        args,
        line: name.line,
    };
    let body = definition.function().body.as_slice();
    put_in(alloc, sets, &call, name.space, body)
}

fn put_in(
    alloc: Global,
    sets: &mut HideSets,
    call: &Call,
    space: bool,
    body: &[Tok],
) -> Result<Option<Items<Marked>>, NoMemory>
    requires { AreArgs sets.old call.now.args.now }
    ensures extended { Extends sets.old sets.new }
    ensures value { IfOk result (GivesMarked sets.new (spec.subst (call_of sets.old call.now) space body.now)) }
{
    let Some(items) = list_items(alloc, sets, call, body)? else {
        return Ok(None);
    };
    let Some(items) = joined(alloc, sets, items)? else {
        return Ok(None);
    };
    Ok(Some(finished(alloc, space, items)?))
}

/// The tokens of the items, of which the first takes this space.
fn finished(alloc: Global, space: bool, items: Vec<Item>) -> Result<Items<Marked>, NoMemory>
    ensures known { IfOk result (λ marked. (sets : Sets) → AreItems sets items.items → AreMarked sets marked) }
    ensures value { IfOk result (λ marked. (sets : Sets) → all_marked_of sets marked ≡ spec.first_spaced space (spec.without_placemarkers (items_of sets items.items))) }
{
    let mut marked = without_placemarkers(alloc, items)?;
    set_first_space(&mut marked, space);
    Ok(Items::of_vec(marked))
}

fn set_first_space(marked: &mut Vec<Marked>, space: bool)
    ensures known { (sets : Sets) → AreMarked sets marked.old.items → AreMarked sets marked.new.items }
    ensures value { (sets : Sets) → all_marked_of sets marked.new.items ≡ spec.first_spaced space (all_marked_of sets marked.old.items) }
{
    if !marked.is_empty() {
        marked[0].tok.space = space;
    }
}
