ghost use Rattle.std.specs.Prelude.{◌≡◌, IfSome, is_some, map};
ghost use Rattle.std.specs.Option.{option_map};
ghost use Rattle.hide_sets.specs.Sets.{Sets};
ghost use Rattle.scan_model.specs.MacroDefinition.{all_params};
ghost use Rattle.scan_model.specs.Expansion.{arg_named};
ghost use Rattle.scan_model.specs.Substitution as subst;
ghost use Rattle.substitution.specs.Meaning.{arg_of, IsArg};
ghost use Rattle.substitution.specs.Calls.{call_of, AreArgs};

use crate::{Arg, IndexedDef};
use scan_model::Tok;

/// What a replacement needs beside the list.
#[derive(Clone, Copy)]
pub(crate) struct Call<'a, 'd> {
    /// None for an object-like macro.
    pub(crate) definition: Option<&'a IndexedDef<'d>>,
    /// The arguments, the variable part's last.
    pub(crate) args: &'a [Arg],
    /// The line of the name that is replaced.
    pub(crate) line: u32,
}

/// Where a part of a replacement list ends.
#[derive(Clone, Copy)]
pub(crate) struct PartEnd<'a> {
    /// Whether the part was a `##`.
    pub(crate) pasted: bool,
    pub(crate) after: &'a [Tok],
}

impl<'a, 'd> Call<'a, 'd> {
    pub(crate) fn is_function(&self) -> bool
        ensures { (sets : Sets) → result ≡ (call_of sets self.now).function }
    {
        self.definition.is_some()
    }

    pub(crate) fn is_variadic(&self) -> bool
        ensures { (sets : Sets) → result ≡ is_some (call_of sets self.now).variadic }
    {
        self.variable().is_some()
    }

    /// The variable part's name.
    fn variable(&self) -> Option<&'d [u8]>
        ensures { (sets : Sets) → option_map (λ name. name.now) result ≡ (call_of sets self.now).variadic }
    {
        match &self.definition?.function().variadic {
            Some(name) => Some(name.as_slice()),
            None => None,
        }
    }

    /// Whether the token is the variable part's name.
    pub(crate) fn is_variable(&self, tok: &Tok) -> bool
        ensures { (sets : Sets) → result ≡ subst.is_variable (call_of sets self.now) tok.now }
    {
        match self.variable() {
            Some(name) => tok.is_named(name),
            None => false,
        }
    }

    /// The argument of the parameter of this name.
    pub(crate) fn arg(&self, name: &[u8]) -> Option<&'a Arg>
        ensures value { (sets : Sets) → option_map (λ a. arg_of sets a.now) result ≡ (call_of sets self.now).arg name.now }
        ensures known { (sets : Sets) → AreArgs sets self.now.args.now → IfSome result (λ a. IsArg sets a.now) }
    {
        match self.definition {
            Some(definition) => arg_named(definition, self.args, name),
            None => None,
        }
    }

    /// The argument of the parameter that the token is.
    pub(crate) fn arg_at(&self, tok: &Tok) -> Option<&'a Arg>
        ensures value { (sets : Sets) → option_map (λ a. arg_of sets a.now) result ≡ subst.arg_at (call_of sets self.now) tok.now }
        ensures known { (sets : Sets) → AreArgs sets self.now.args.now → IfSome result (λ a. IsArg sets a.now) }
    {
        if tok.is_ident() {
            self.arg(tok.text.as_slice())
        } else {
            None
        }
    }

    /// Whether the replaced variable part has a token.
    pub(crate) fn has_variable(&self) -> bool
        ensures { (sets : Sets) → result ≡ subst.has_variable (call_of sets self.now) }
    {
        let Some(name) = self.variable() else {
            return false;
        };
        match self.arg(name) {
            Some(arg) => !arg.replaced().is_empty(),
            None => false,
        }
    }
}

fn arg_named<'a>(definition: &IndexedDef, args: &'a [Arg], name: &[u8]) -> Option<&'a Arg>
    ensures value { (sets : Sets) → option_map (λ a. arg_of sets a.now) result ≡ arg_named (all_params definition.now.params definition.now.variadic) (map (arg_of sets) args.now) name.now }
    ensures known { (sets : Sets) → AreArgs sets args.now → IfSome result (λ a. IsArg sets a.now) }
{
    let Some(place) = definition.place(name) else {
        return None;
    };
    if place < args.len() {
        Some(&args[place])
    } else {
        None
    }
}
