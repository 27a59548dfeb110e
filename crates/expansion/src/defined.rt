ghost use Rattle.std.specs.Prelude.{◌≡◌, ◌+◌, IfOk};
ghost use Rattle.std.specs.Option.{option_map};
ghost use Rattle.scan_model.specs.Expansion as expansion;
ghost use Rattle.scan_model.specs.Expansion.{defined_out, defined_name};
ghost use Rattle.substitution.specs.Meaning.{marked_of, all_marked_of, IsMarked};
ghost use Rattle.expansion_laws.specs.Turns.{expands};
ghost use Rattle.expansion.specs.Lists.{defined_at, digit_of};
ghost use Rattle.expansion.specs.States.{IsMachine, Turns, continued, scope_of, weight};

use crate::built_ins::instead;
use crate::machine::{Machine, Turn};
use crate::scope::Scope;
use list_stack::ListStack;
use scan_model::{Bytes, Kind, NoMemory};
use substitution::Marked;

/// The name after `defined`, and how many tokens it takes with its parentheses.
#[derive(Clone, Copy)]
pub(crate) struct DefinedName<'a> {
    pub(crate) name: &'a [u8],
    pub(crate) length: usize,
}

impl<'a> Machine<'a> {
    /// `defined X` and `defined(X)` become 1 or 0 ([cpp.cond]); a `defined` of another form goes out.
    pub(crate) fn defined(&mut self, scope: &Scope<'a>, word: Marked) -> Result<Turn, NoMemory>
        requires valid { IsMachine self.old }
        requires word { IsMarked self.old.sets word }
        ensures { IfOk result (Turns (scope_of scope.now) (continued (scope_of scope.now) self.old (defined_out (expands (scope_of scope.now)) (scope_of scope.now) (marked_of self.old.sets word) (all_marked_of self.old.sets self.old.todo.first) self.old.cost self.old.counter (defined_name (expands (scope_of scope.now)) (scope_of scope.now) (all_marked_of self.old.sets self.old.todo.first)))) (weight self.old + 1) self.new) }
    {
        let Some(found) = defined_name(&self.todo) else {
            return self.goes_out(word);
        };
        let length = found.length;
        let is_defined = scope.macros.get(found.name).is_some();
        self.todo.skip(length);
        let digit = digit(is_defined);
        let text = Bytes::copy(self.alloc, digit)?;
        self.goes_out(instead(Kind::Number, text, word))
    }
}

/// `1` or `0`.
pub(crate) fn digit(is_defined: bool) -> &'static [u8]
    ensures { result.now ≡ digit_of is_defined }
{
    if is_defined { b"1" } else { b"0" }
}

/// None where the tokens are neither a name nor a name in parentheses.
fn defined_name(todo: &ListStack) -> Option<DefinedName<'_>>
    ensures { option_map (λ d. (d.name.now, d.length)) result ≡ defined_at todo.now.first }
{
    let Some(first) = todo.at(0) else {
        return None;
    };
    if first.tok.is_ident() {
        return Some(DefinedName {
            name: first.tok.text.as_slice(),
            length: 1,
        });
    }
    let (Some(name), Some(close)) = (todo.at(1), todo.at(2)) else {
        return None;
    };
    if first.tok.is_open_paren() && name.tok.is_ident() && close.tok.is_close_paren() {
        return Some(DefinedName {
            name: name.tok.text.as_slice(),
            length: 3,
        });
    }
    None
}
