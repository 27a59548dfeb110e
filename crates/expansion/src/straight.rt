ghost use Rattle.std.specs.Prelude.{◌≡◌, ◌∷◌, IfOk, IfSome};
ghost use Rattle.std.specs.Option.{option_map};
ghost use Rattle.scan_model.specs.declared.expansion.Expanded.TheVariants.{Done};
ghost use Rattle.scan_model.specs.Substitution.{no_name, subst};
ghost use Rattle.scan_model.specs.TokenTests.{begins_with, is_open_paren};
ghost use Rattle.scan_model.specs.Expansion as expansion;
ghost use Rattle.scan_model.specs.Expansion.{also, by_def, built_in, defined_name, defined_out, expand, first_counter, out, rescanned};
ghost use Rattle.substitution.specs.Calls.{object_call};
ghost use Rattle.expansion_laws.specs.Turns.{expands};
ghost use Rattle.expansion.specs.States.{scope_of};
ghost use Rattle.expansion.specs.Straight.{Settles, mark, marks, name_after, stays};

use crate::defined::digit;
use crate::scope::Scope;
use crate::turns::is_defined_operator;
use macro_table::{BuiltIn, Def};
use scan_model::{Bytes, Items, Kind, NoMemory, Tok};
use std::alloc::Global;

/// The most tokens that are settled in their places: each costs two at most, which the limit of an expansion allows.
const MOST_TOKENS: usize = 524_288;

/// The token that a list gives first, and the tokens that are left of the list.
#[derive(Drop)]
pub(crate) struct Step<'a> {
    pub(crate) tok: Tok,
    pub(crate) left: &'a [Tok],
}

/// A name, and the tokens that follow it.
#[derive(Clone, Copy)]
struct FoundName<'a> {
    name: &'a [u8],
    left: &'a [Tok],
}

/// The tokens with every macro replaced, where each can be settled in its place, from the left. None says nothing.
pub(crate) fn straight(
    alloc: Global,
    scope: &Scope<'_>,
    toks: &[Tok],
) -> Result<Option<Items<Tok>>, NoMemory>
    ensures { IfOk result (λ settled. IfSome settled (λ list. expand (scope_of scope.now).defs (scope_of scope.now).site (scope_of scope.now).mode toks.now ≡ Done list (first_counter scope.now.mode))) }
{
    if toks.len() > MOST_TOKENS {
        return Ok(None);
    }
    let mut list = Vec::with_capacity(alloc, toks.len())?;
    let mut left = toks;
    'steps: while let Some((first, rest)) = left.split_first() {
        let Some(step) = first_step(alloc, scope, first, rest)? else {
            return Ok(None);
        };
        list.push(step.tok)?;
        left = step.left;
    }
    Ok(Some(Items::of_vec(list)))
}

/// What the first token gives.
fn first_step<'a>(
    alloc: Global,
    scope: &Scope<'_>,
    first: &Tok,
    rest: &'a [Tok],
) -> Result<Option<Step<'a>>, NoMemory>
    ensures { IfOk result (λ step. IfSome step (Settles (scope_of scope.now) (λ cost counter. expands (scope_of scope.now) (marks (first.now ∷ rest.now)) cost counter) rest.now)) }
{
    if !first.is_ident() {
        return Ok(Some(as_it_is(alloc, first, rest)?));
    }
    if is_defined_operator(scope.mode, first) {
        return defined(alloc, scope, first, rest);
    }
    named(alloc, scope, first, rest)
}

/// A name gives itself, where nothing is replaced, or one token.
fn named<'a>(
    alloc: Global,
    scope: &Scope<'_>,
    name: &Tok,
    rest: &'a [Tok],
) -> Result<Option<Step<'a>>, NoMemory>
    ensures { IfOk result (λ step. IfSome step (Settles (scope_of scope.now) (λ cost counter. by_def (expands (scope_of scope.now)) (scope_of scope.now) (mark name.now) (marks rest.now) cost counter ((scope_of scope.now).defs name.now.text)) rest.now)) }
{
    match scope.macros.get(name.text.as_slice()) {
        None => Ok(Some(as_it_is(alloc, name, rest)?)),
        Some(Def::BuiltIn(which)) => built_in(alloc, *which, name, rest),
        Some(Def::Object(body)) => object(alloc, scope, body.as_slice(), name, rest),
        Some(Def::Function(_)) => {
            if is_called(rest) {
                Ok(None)
            } else {
                Ok(Some(as_it_is(alloc, name, rest)?))
            }
        }
    }
}

/// The token goes out as it is.
fn as_it_is<'a>(alloc: Global, tok: &Tok, rest: &'a [Tok]) -> Result<Step<'a>, NoMemory>
    ensures { IfOk result (λ step. (e : expansion.Scope) → Settles e (λ cost counter. out (mark tok.now) (expands e (marks rest.now) cost counter)) rest.now step) }
{
    Ok(Step {
        tok: tok.copy(alloc)?,
        left: rest,
    })
}

/// `defined X` and `defined(X)` become 1 or 0 ([cpp.cond]).
fn defined<'a>(
    alloc: Global,
    scope: &Scope<'_>,
    word: &Tok,
    rest: &'a [Tok],
) -> Result<Option<Step<'a>>, NoMemory>
    ensures { IfOk result (λ step. IfSome step (Settles (scope_of scope.now) (λ cost counter. defined_out (expands (scope_of scope.now)) (scope_of scope.now) (mark word.now) (marks rest.now) cost counter (defined_name (expands (scope_of scope.now)) (scope_of scope.now) (marks rest.now))) rest.now)) }
{
    let Some(found) = name_after(rest) else {
        return Ok(None);
    };
    let is_defined = scope.macros.get(found.name).is_some();
    Ok(Some(Step {
        tok: in_place(alloc, Kind::Number, digit(is_defined), word)?,
        left: found.left,
    }))
}

/// An object-like macro whose replacement list is one token, which stays as it is.
fn object<'a>(
    alloc: Global,
    scope: &Scope<'_>,
    body: &[Tok],
    name: &Tok,
    rest: &'a [Tok],
) -> Result<Option<Step<'a>>, NoMemory>
    ensures { IfOk result (λ step. IfSome step (Settles (scope_of scope.now) (λ cost counter. rescanned (expands (scope_of scope.now)) (scope_of scope.now) (also name.now.text no_name) (marks rest.now) cost counter (subst (object_call name.now.line) name.now.space body.now)) rest.now)) }
{
    if body.len() != 1 {
        return Ok(None);
    }
    let tok = &body[0];
    if !stays(scope, tok) {
        return Ok(None);
    }
    Ok(Some(Step {
        tok: in_place(alloc, tok.kind, tok.text.as_slice(), name)?,
        left: rest,
    }))
}

/// A built-in name whose value is the same everywhere, or which is an operator of conditions.
fn built_in<'a>(
    alloc: Global,
    which: BuiltIn,
    name: &Tok,
    rest: &'a [Tok],
) -> Result<Option<Step<'a>>, NoMemory>
    ensures { IfOk result (λ step. (e : expansion.Scope) → IfSome step (Settles e (λ cost counter. built_in (expands e) e which (mark name.now) (marks rest.now) cost counter) rest.now)) }
{
    match which {
        BuiltIn::Cplusplus => Ok(Some(Step {
            tok: in_place(alloc, Kind::Number, b"202002L", name)?,
            left: rest,
        })),
        BuiltIn::HasInclude => Ok(Some(as_it_is(alloc, name, rest)?)),
        BuiltIn::HasIncludeNext => Ok(Some(as_it_is(alloc, name, rest)?)),
        BuiltIn::HasAttribute => Ok(Some(as_it_is(alloc, name, rest)?)),
        _ => Ok(None),
    }
}

/// A token of this kind and spelling in place of the name.
fn in_place(alloc: Global, kind: Kind, text: &[u8], name: &Tok) -> Result<Tok, NoMemory>
    ensures { IfOk result (λ tok. tok ≡ record name.now { kind = kind; text = text.now }) }
{
    Ok(Tok {
        kind,
        text: Bytes::copy(alloc, text)?,
        space: name.space,
        line: name.line,
    })
}

/// Whether the token, in place of a macro's name, goes out as it is.
fn stays(scope: &Scope<'_>, tok: &Tok) -> bool
    ensures { result ≡ stays (scope_of scope.now) tok.now }
{
    if tok.is_paste() {
        return false;
    }
    if !tok.is_ident() {
        return true;
    }
    !is_defined_operator(scope.mode, tok) && scope.macros.get(tok.text.as_slice()).is_none()
}

/// Whether a `(` comes first.
fn is_called(toks: &[Tok]) -> bool
    ensures { result ≡ begins_with is_open_paren toks.now }
{
    !toks.is_empty() && toks[0].is_open_paren()
}

/// The name that stands first, or in parentheses.
fn name_after(toks: &[Tok]) -> Option<FoundName<'_>>
    ensures { option_map (λ n. (n.name.now, n.left.now)) result ≡ name_after toks.now }
{
    let (first, left) = toks.split_first()?;
    if first.is_ident() {
        return Some(FoundName {
            name: first.text.as_slice(),
            left,
        });
    }
    let (name, after) = left.split_first()?;
    let (close, left) = after.split_first()?;
    if first.is_open_paren() && name.is_ident() && close.is_close_paren() {
        return Some(FoundName {
            name: name.text.as_slice(),
            left,
        });
    }
    None
}
