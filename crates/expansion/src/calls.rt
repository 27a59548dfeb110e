ghost use Rattle.std.specs.Prelude.{◌≡◌, ◌+◌, ◌<◌, [], true, false, IfOk, length, map};
ghost use Rattle.scan_model.specs.Parentheses.{in_parens};
ghost use Rattle.scan_model.specs.Substitution.{is_replaced};
ghost use Rattle.scan_model.specs.Expansion as expansion;
ghost use Rattle.scan_model.specs.Expansion.{Went};
ghost use Rattle.substitution.specs.Meaning.{marked_of, all_marked_of, IsMarked};
ghost use Rattle.expansion_laws.specs.Turns.{expands};
ghost use Rattle.expansion.specs.Meaning.{kept_written};
ghost use Rattle.expansion.specs.States.{AddsArg, IsCall, IsMachine, IsMachineBeside, TakesArg, Turns, called_on, continued, next_name, weight};

use crate::args::{all_args, cut_args};
use crate::machine::{Call, Machine, Pending, Turn};
use scan_model::{Expanded, FunctionDef, Items, NoMemory, Tok};
use std::alloc::Global;
use std::mem;
use substitution::{Arg, IndexedDef, Marked, substitute_function};

impl<'a> Machine<'a> {
    /// The name of a function-like macro and a `(` are a call, which is replaced.
    pub(crate) fn call(
        &mut self,
        definition: &'a FunctionDef,
        name: Marked,
    ) -> Result<Turn, NoMemory>
        requires valid { IsMachine self.old }
        requires name { IsMarked self.old.sets name }
        ensures { IfOk result (λ turn. (e : expansion.Scope) → Turns e (continued e self.old (expansion.call (expands e) e definition.now (marked_of self.old.sets name) self.old.cost self.old.counter (in_parens (λ m. m.tok) (all_marked_of self.old.sets self.old.todo.first)))) (weight self.old + 1) self.new turn) }
    {
        let Some(close) = self.todo.open()? else {
            return Ok(Turn::Ends(Expanded::Bad));
        };
        let Some(further) = cut_args(&mut self.todo, definition)? else {
            return Ok(Turn::Ends(Expanded::Bad));
        };
        let indexed = IndexedDef::new(self.alloc, definition)?;
        let before = mem::replace(&mut self.out, Vec::new(self.alloc));
        self.next_arg(Call {
            definition: indexed,
            name,
            close,
            args: Vec::new(self.alloc),
            further,
            before,
        })
    }

    /// Nothing is left of the list at work: it was the whole, or an argument of the innermost call.
    pub(crate) fn end_list(&mut self) -> Result<Turn, NoMemory>
        requires valid { IsMachine self.old }
        requires ended { self.old.todo.first ≡ [] }
        ensures { IfOk result (λ turn. (e : expansion.Scope) → Turns e (continued e self.old (Went [] self.old.cost self.old.counter)) (weight self.old) self.new turn) }
    {
        let out = mem::replace(&mut self.out, Vec::new(self.alloc));
        match self.calls.pop() {
            None => Ok(Turn::Ends(Expanded::Done(toks_of(self.alloc, out)?, self.counter))),
            Some(Pending { call, written }) => {
                self.todo.end_list();
                let call = with_arg(call, written, Some(out))?;
                self.next_arg(call)
            }
        }
    }

    /// Goes on to the next argument that is replaced by itself; where there is none, the call is replaced.
    fn next_arg(&mut self, call: Call<'a>) -> Result<Turn, NoMemory>
        requires valid { IsMachineBeside self.old call.further }
        requires call { IsCall self.old.sets call (length call.args.items) }
        ensures { IfOk result (λ turn. (e : expansion.Scope) → Turns e (called_on e self.old call.entry) (weight self.old + 1) self.new turn) }
    {
        let mut call = call;
        'further: while call.further > 0 {
            let name = call.definition.parameter(call.args.len());
            if call.definition.is_replaced(name) {
                return self.begin(call, name);
            }
            call = self.take_arg(call)?;
        }
        self.finish(call)
    }

    /// The call's next argument, for the parameter of this name, comes to be replaced by itself.
    fn begin(&mut self, call: Call<'a>, name: &[u8]) -> Result<Turn, NoMemory>
        requires valid { IsMachineBeside self.old call.further }
        requires call { IsCall self.old.sets call (length call.args.items) }
        requires another { 0 < call.further }
        requires name { name.now ≡ next_name call }
        requires replaced { is_replaced call.definition name.now ≡ true }
        ensures { IfOk result (λ turn. (e : expansion.Scope) → Turns e (called_on e self.old call.entry) (weight self.old + 1) self.new turn) }
    {
        let mut call = call;
        let written = self.kept_written(&call.definition, name)?;
        call.further -= 1;
        self.calls.push(Pending { call, written })?;
        self.out = Vec::new(self.alloc);
        Ok(Turn::Goes)
    }

    /// What a replacement may take of the list at work as it is written, where it is the argument for this parameter.
    fn kept_written(&self, definition: &IndexedDef, name: &[u8]) -> Result<Vec<Marked>, NoMemory>
        ensures { IfOk result (λ kept. kept.items ≡ kept_written definition.now name.now self.now.todo.first) }
    {
        if definition.is_taken_as_written(name) {
            self.todo.copy_list(self.alloc)
        } else {
            Ok(Vec::new(self.alloc))
        }
    }

    /// The call's next argument, which isn't replaced by itself, is done as it is written.
    fn take_arg(&mut self, call: Call<'a>) -> Result<Call<'a>, NoMemory>
        requires valid { IsMachineBeside self.old call.further }
        requires call { IsCall self.old.sets call (length call.args.items) }
        requires another { 0 < call.further }
        requires kept { is_replaced call.definition (next_name call) ≡ false }
        ensures { IfOk result (TakesArg self.old call.entry self.new) }
    {
        let mut call = call;
        let list = self.todo.take_list(self.alloc)?;
        call.further -= 1;
        with_arg(call, list, None)
    }

    /// The call has its arguments, and its list comes in its place.
    fn finish(&mut self, call: Call<'a>) -> Result<Turn, NoMemory>
        requires valid { IsMachine self.old }
        requires call { IsCall self.old.sets call (length call.args.items) }
        requires none { call.further ≡ 0 }
        ensures { IfOk result (λ turn. (e : expansion.Scope) → Turns e (called_on e self.old call.entry) (weight self.old) self.new turn) }
    {
        let Call {
            definition,
            name,
            close,
            args,
            further: _,
            before,
        } = call;
        let args = all_args(self.alloc, &definition, args)?;
        self.out = before;
        let list = substitute_function(
            self.alloc,
            &mut self.sets,
            &definition,
            args.as_slice(),
            &name.tok,
        )?;
        let common = self.sets.common(name.hides, close)?;
        let added = self
            .sets
            .also(self.alloc, common, name.tok.text.as_slice())?;
        self.rescan(list, added)
    }
}

/// The call with one more argument that is done.
fn with_arg<'a>(
    call: Call<'a>,
    written: Vec<Marked>,
    replaced: Option<Vec<Marked>>,
) -> Result<Call<'a>, NoMemory>
    ensures { IfOk result (AddsArg call.entry written replaced) }
{
    let mut call = call;
    let replaced = match replaced {
        Some(list) => Some(Items::of_vec(list)),
        None => None,
    };
    call.args.push(Arg {
        written: Items::of_vec(written),
        replaced,
    })?;
    Ok(call)
}

/// The tokens, without their hide sets.
fn toks_of(alloc: Global, list: Vec<Marked>) -> Result<Items<Tok>, NoMemory>
    ensures { IfOk result (λ toks. toks ≡ map (λ m. m.tok) list.items) }
{
    let mut toks = Vec::new(alloc);
    let mut rest = list.into_iter();
    'rest: while let Some(marked) = rest.next() {
        toks.push(marked.tok)?;
    }
    Ok(Items::of_vec(toks))
}
