ghost use Rattle.std.specs.Prelude.{IfOk};
ghost use Rattle.scan_model.specs.Substitution.{subst};
ghost use Rattle.scan_model.specs.Expansion as expansion;
ghost use Rattle.scan_model.specs.Expansion.{also, rescanned};
ghost use Rattle.substitution.specs.Meaning.{marked_of, all_marked_of, IsMarked};
ghost use Rattle.expansion_laws.specs.Turns.{expands};
ghost use Rattle.substitution.specs.Calls.{object_call};
ghost use Rattle.expansion.specs.States.{IsMachine, Turns, continued, weight};

use crate::machine::{Machine, Turn};
use scan_model::{NoMemory, Tok};
use substitution::{Marked, substitute_object};

impl<'a> Machine<'a> {
    /// The name of an object-like macro is replaced.
    pub(crate) fn object(&mut self, body: &[Tok], name: Marked) -> Result<Turn, NoMemory>
        requires valid { IsMachine self.old }
        requires name { IsMarked self.old.sets name }
        ensures { IfOk result (λ turn. (e : expansion.Scope) → Turns e (continued e self.old (rescanned (expands e) e (also name.tok.text (marked_of self.old.sets name).hides) (all_marked_of self.old.sets self.old.todo.first) self.old.cost self.old.counter (subst (object_call name.tok.line) name.tok.space body.now))) (weight self.old) self.new turn) }
    {
        let list = substitute_object(self.alloc, &mut self.sets, body, &name.tok)?;
        let added = self
            .sets
            .also(self.alloc, name.hides, name.tok.text.as_slice())?;
        self.rescan(list, added)
    }
}
