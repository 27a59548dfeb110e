ghost use Rattle.std.specs.Prelude.{◌+◌, IfOk, IfSome};
ghost use Rattle.std.specs.Option.{option_map};
ghost use Rattle.hide_sets.specs.Sets.{IsSet, hides_of};
ghost use Rattle.substitution.specs.Meaning.{marked_of, all_marked_of, IsMarked, AreMarked};
ghost use Rattle.scan_model.specs.Expansion as expansion;
ghost use Rattle.scan_model.specs.Expansion.{out, rescanned};
ghost use Rattle.expansion_laws.specs.Turns.{expands};
ghost use Rattle.expansion.specs.States.{IsMachine, Turns, continued, weight};

use hide_sets::{HideSet, HideSets};
use list_stack::ListStack;
use scan_model::{Expanded, Items, NoMemory};
use std::alloc::Global;
use substitution::{Arg, IndexedDef, Marked};

/// What the replacements of one expansion may cost.
pub(crate) const COST_LIMIT: u32 = 1_048_576;

/// A call of a function-like macro that has its arguments cut ([cpp.subst]).
#[derive(Drop)]
pub(crate) struct Call<'a> {
    pub(crate) definition: IndexedDef<'a>,
    pub(crate) name: Marked,
    /// The hide set of its `)`.
    pub(crate) close: HideSet,
    /// The arguments that are done.
    pub(crate) args: Vec<Arg>,
    /// How many arguments follow: they, and then what follows the `)`, are lists of the machine's stack.
    pub(crate) further: usize,
    /// What went out before the name, of the list in which the call stands.
    pub(crate) before: Vec<Marked>,
}

/// A call one of whose arguments is being replaced.
#[derive(Drop)]
pub(crate) struct Pending<'a> {
    pub(crate) call: Call<'a>,
    /// That argument as it is written, where the replacement may take it so.
    pub(crate) written: Vec<Marked>,
}

/// Macro replacement under way: a list of tokens from the left, and the calls for one of whose arguments that is done.
///
/// What is left of all lists stands in one stack, so that a call moves none of the tokens that it encloses: for each
/// call, from the innermost on, its arguments that follow and then what follows its `)`.
#[derive(Drop)]
pub(crate) struct Machine<'a> {
    pub(crate) alloc: Global,
    pub(crate) sets: HideSets,
    pub(crate) todo: ListStack,
    /// What went out of the list at work.
    pub(crate) out: Vec<Marked>,
    /// The innermost call is the last.
    pub(crate) calls: Vec<Pending<'a>>,
    pub(crate) cost: u32,
    pub(crate) counter: u64,
}

/// What a turn of the machine leads to.
#[derive(Drop)]
pub(crate) enum Turn {
    Goes,
    Ends(Expanded),
}

impl<'a> Machine<'a> {
    /// The token goes out as it is.
    pub(crate) fn goes_out(&mut self, token: Marked) -> Result<Turn, NoMemory>
        requires valid { IsMachine self.old }
        requires token { IsMarked self.old.sets token }
        ensures { IfOk result (λ turn. (e : expansion.Scope) → Turns e (continued e self.old (out (marked_of self.old.sets token) (expands e (all_marked_of self.old.sets self.old.todo.first) self.old.cost self.old.counter))) (weight self.old + 1) self.new turn) }
    {
        self.out.push(token)?;
        Ok(Turn::Goes)
    }

    /// The list comes in place of what was replaced, each token with the added names; none is a bad join or string.
    pub(crate) fn rescan(
        &mut self,
        list: Option<Items<Marked>>,
        added: HideSet,
    ) -> Result<Turn, NoMemory>
        requires valid { IsMachine self.old }
        requires list { IfSome list (AreMarked self.old.sets) }
        requires added { IsSet self.old.sets added }
        ensures { IfOk result (λ turn. (e : expansion.Scope) → Turns e (continued e self.old (rescanned (expands e) e (hides_of self.old.sets added) (all_marked_of self.old.sets self.old.todo.first) self.old.cost self.old.counter (option_map (all_marked_of self.old.sets) list))) (weight self.old) self.new turn) }
    {
        let Some(list) = list else {
            return Ok(Turn::Ends(Expanded::Bad));
        };
        let length = list.as_slice().len();
        if length >= (COST_LIMIT - self.cost) as usize {
            return Ok(Turn::Ends(Expanded::TooLong));
        }
        self.cost += 1 + length as u32;
        self.todo.put_before(&mut self.sets, list, added)?;
        Ok(Turn::Goes)
    }
}
