ghost use Rattle.std.specs.Prelude.{◌≡◌, ◌+◌, IfOk, decimal, codes};
ghost use Rattle.scan_model.specs.Site.{presumed};
ghost use Rattle.scan_model.specs.Expansion as expansion;
ghost use Rattle.scan_model.specs.Expansion.{built_in, built_in_out, instead};
ghost use Rattle.hide_sets.specs.Sets.{Sets};
ghost use Rattle.substitution.specs.Meaning.{marked_of, all_marked_of, IsMarked};
ghost use Rattle.expansion_laws.specs.Turns.{expands};
ghost use Rattle.expansion.specs.States.{IsMachine, Turns, continued, scope_of, weight};

use crate::machine::{COST_LIMIT, Machine, Turn};
use crate::scope::Scope;
use macro_table::BuiltIn;
use scan_model::{Bytes, Expanded, Kind, Mode, NoMemory, Site, Tok};
use std::alloc::Global;
use substitution::Marked;

impl<'a> Machine<'a> {
    /// A built-in name is replaced ([cpp.predefined]); the names of operators of conditions go out.
    pub(crate) fn built_in(
        &mut self,
        scope: &Scope<'a>,
        which: BuiltIn,
        name: Marked,
    ) -> Result<Turn, NoMemory>
        requires valid { IsMachine self.old }
        requires name { IsMarked self.old.sets name }
        ensures { IfOk result (Turns (scope_of scope.now) (continued (scope_of scope.now) self.old (built_in (expands (scope_of scope.now)) (scope_of scope.now) which (marked_of self.old.sets name) (all_marked_of self.old.sets self.old.todo.first) self.old.cost self.old.counter)) (weight self.old + 1) self.new) }
    {
        match which {
            BuiltIn::File => {
                let text = Bytes::copy(self.alloc, scope.site.file.as_slice())?;
                self.gives(Kind::Str, text, name)
            }
            BuiltIn::Line => {
                let text = decimal(self.alloc, presumed(scope.site, name.tok.line))?;
                self.gives(Kind::Number, text, name)
            }
            BuiltIn::Date => {
                let text = Bytes::copy(self.alloc, b"\"Jan  1 1970\"")?;
                self.gives(Kind::Str, text, name)
            }
            BuiltIn::Time => {
                let text = Bytes::copy(self.alloc, b"\"00:00:00\"")?;
                self.gives(Kind::Str, text, name)
            }
            BuiltIn::Cplusplus => {
                let text = Bytes::copy(self.alloc, b"202002L")?;
                self.gives(Kind::Number, text, name)
            }
            BuiltIn::Counter => self.counts(scope, name),
            BuiltIn::HasInclude => self.goes_out(name),
            BuiltIn::HasAttribute => self.goes_out(name),
            BuiltIn::HasIncludeNext => self.goes_out(name),
        }
    }

    /// `__COUNTER__`, which only text raises.
    fn counts(&mut self, scope: &Scope<'a>, name: Marked) -> Result<Turn, NoMemory>
        requires valid { IsMachine self.old }
        requires name { IsMarked self.old.sets name }
        ensures { IfOk result (Turns (scope_of scope.now) (continued (scope_of scope.now) self.old (built_in (expands (scope_of scope.now)) (scope_of scope.now) BuiltIn.Counter (marked_of self.old.sets name) (all_marked_of self.old.sets self.old.todo.first) self.old.cost self.old.counter)) (weight self.old + 1) self.new) }
    {
        if !is_text(scope.mode) {
            return Ok(Turn::Ends(Expanded::Counter));
        }
        if self.cost + 2 > COST_LIMIT {
            return Ok(Turn::Ends(Expanded::TooLong));
        }
        let text = decimal(self.alloc, self.counter)?;
        self.cost += 2;
        self.counter += 1;
        self.goes_out(instead(Kind::Number, text, name))
    }

    /// A token of this kind and spelling goes out in place of the name.
    fn gives(&mut self, kind: Kind, text: Bytes, name: Marked) -> Result<Turn, NoMemory>
        requires valid { IsMachine self.old }
        requires name { IsMarked self.old.sets name }
        ensures { IfOk result (λ turn. (e : expansion.Scope) → Turns e (continued e self.old (built_in_out (expands e) e kind text (marked_of self.old.sets name) (all_marked_of self.old.sets self.old.todo.first) self.old.cost self.old.counter)) (weight self.old + 1) self.new turn) }
    {
        if self.cost + 2 > COST_LIMIT {
            return Ok(Turn::Ends(Expanded::TooLong));
        }
        self.cost += 2;
        self.goes_out(instead(kind, text, name))
    }
}

/// A token of this kind and spelling in place of another.
pub(crate) fn instead(kind: Kind, text: Bytes, token: Marked) -> Marked
    ensures known { (sets : Sets) → IsMarked sets token → IsMarked sets result }
    ensures value { (sets : Sets) → marked_of sets result ≡ instead kind text (marked_of sets token) }
{
    let Marked { tok, hides } = token;
    Marked {
        tok: Tok {
            kind,
            text,
            space: tok.space,
            line: tok.line,
        },
        hides,
    }
}

fn is_text(mode: Mode) -> bool
    ensures { result ≡ expansion.in_text mode }
{
    matches!(mode, Mode::Text(_))
}

fn decimal(alloc: Global, number: u64) -> Result<Bytes, NoMemory>
    ensures { IfOk result (λ text. text ≡ decimal number) }
{
    let text = number.to_string(alloc)?;
    Ok(Bytes::of_vec(text.into_bytes()))
}

/// The number that `__LINE__` gives on a line.
fn presumed(site: &Site, line: u32) -> u64
    ensures { result ≡ presumed site.now line }
{
    let line = u64::from(line);
    let shift = site.shift;
    if shift >= 0 {
        line + shift.unsigned_abs()
    } else {
        line.abs_diff(shift.unsigned_abs())
    }
}
