ghost use Rattle.std.specs.Prelude.{◌≡◌, ◌+◌, ◌&&◌, IfOk};
ghost use Rattle.scan_model.specs.Spelling.{spells};
ghost use Rattle.scan_model.specs.Expansion as expansion;
ghost use Rattle.scan_model.specs.Expansion.{by_def};
ghost use Rattle.substitution.specs.Meaning.{marked_of, all_marked_of, IsMarked};
ghost use Rattle.expansion_laws.specs.Turns.{expands};
ghost use Rattle.expansion.specs.States.{IsMachine, Turns, continued, ran_of, scope_of, weight};

use crate::machine::{Machine, Turn};
use crate::scope::Scope;
use macro_table::Def;
use scan_model::{Mode, NoMemory, Tok};
use substitution::Marked;

impl<'a> Machine<'a> {
    /// One turn: the next token of the list, or the list's end.
    pub(crate) fn turn(&mut self, scope: &Scope<'a>) -> Result<Turn, NoMemory>
        requires { IsMachine self.old }
        ensures { IfOk result (Turns (scope_of scope.now) (ran_of (scope_of scope.now) self.old) (weight self.old) self.new) }
    {
        let Some(token) = self.todo.next() else {
            return self.end_list();
        };
        if !token.tok.is_ident() {
            return self.goes_out(token);
        }
        if is_defined_operator(scope.mode, &token.tok) {
            return self.defined(scope, token);
        }
        if self.sets.hides(token.hides, token.tok.text.as_slice()) {
            return self.goes_out(token);
        }
        self.replace_name(scope, token)
    }

    /// A name that isn't hidden is replaced, where it has a definition that applies here.
    fn replace_name(&mut self, scope: &Scope<'a>, name: Marked) -> Result<Turn, NoMemory>
        requires valid { IsMachine self.old }
        requires name { IsMarked self.old.sets name }
        ensures { IfOk result (Turns (scope_of scope.now) (continued (scope_of scope.now) self.old (by_def (expands (scope_of scope.now)) (scope_of scope.now) (marked_of self.old.sets name) (all_marked_of self.old.sets self.old.todo.first) self.old.cost self.old.counter ((scope_of scope.now).defs name.tok.text))) (weight self.old + 1) self.new) }
    {
        match scope.macros.get(name.tok.text.as_slice()) {
            None => self.goes_out(name),
            Some(Def::BuiltIn(which)) => self.built_in(scope, *which, name),
            Some(Def::Object(body)) => self.object(body.as_slice(), name),
            Some(Def::Function(definition)) => {
                if self.todo.is_called() {
                    self.call(definition, name)
                } else {
                    self.goes_out(name)
                }
            }
        }
    }
}

/// Whether the identifier is the operator `defined`, which only conditions have ([cpp.cond]).
pub(crate) fn is_defined_operator(mode: Mode, tok: &Tok) -> bool
    ensures { result ≡ (expansion.in_condition mode && spells "defined" tok.now.text) }
{
    matches!(mode, Mode::Condition) && tok.text.as_slice() == b"defined".as_slice()
}
