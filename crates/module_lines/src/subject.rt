ghost use Rattle.std.specs.Prelude.{◌≡◌, IfOk, IfSome, List, [], ◌∷◌, ℕ, Option};
ghost use Rattle.std.specs.Option.{option_map};
ghost use Rattle.scan_model.specs.ModuleLines as line;
ghost use Rattle.scan_model.specs.TokenTests.{begins_with, is_sign};
ghost use Rattle.module_lines.specs.Found.{after_colon, named, subject_of};
ghost use Rattle.scan_model.specs.Utf8Names.{HaveUtf8Names};

use crate::dotted::{Dotted, read_dotted};
use crate::token_tests::{is_colon, is_ended, is_private, is_semicolon};
use scan_model::{NoMemory, Text, Tok};
use std::alloc::Global;

/// What a line is about: the words between its keyword and its `;` ([module.unit], [module.import]).
#[derive(Drop)]
pub(crate) enum Subject {
    Empty,
    /// `:private`
    Private,
    Name(Text),
    /// `:PART`
    Partition(Text),
    /// `NAME:PART`
    NameAndPartition(Text, Text),
}

/// The tokens before the first `;`; None exactly where there is none.
pub(crate) fn statement(toks: &[Tok]) -> Option<&[Tok]>
    requires { HaveUtf8Names toks.now }
    ensures value { option_map (λ ts. ts.now) result ≡ line.statement toks.now }
    ensures utf8 { IfSome result (λ ts. HaveUtf8Names ts.now) }
{
    for (i, tok) in toks.iter().enumerate() {
        if is_semicolon(tok) {
            return Some(&toks[..i]);
        }
    }
    None
}

/// What the tokens of a statement say; None where they have no form of [module.unit] or [module.import].
pub(crate) fn read_subject(alloc: Global, toks: &[Tok]) -> Result<Option<Subject>, NoMemory>
    requires { HaveUtf8Names toks.now }
    ensures { IfOk result (λ s. option_map subject_of s ≡ line.subject toks.now) }
{
    if toks.is_empty() {
        return Ok(Some(Subject::Empty));
    }
    if is_colon(&toks[0]) {
        return after_colon(alloc, &toks[1..]);
    }
    match read_dotted(alloc, toks)? {
        Some(Dotted { name, after }) => after_name(alloc, name, after),
        None => Ok(None),
    }
}

/// What follows a `:` that comes first.
fn after_colon(alloc: Global, toks: &[Tok]) -> Result<Option<Subject>, NoMemory>
    requires { HaveUtf8Names toks.now }
    ensures { IfOk result (λ s. option_map subject_of s ≡ after_colon toks.now) }
{
    if is_private(toks) {
        return Ok(Some(Subject::Private));
    }
    match partition(alloc, toks)? {
        Some(part) => Ok(Some(Subject::Partition(part))),
        None => Ok(None),
    }
}

/// What a name and the tokens after it say.
fn after_name(alloc: Global, name: Text, after: &[Tok]) -> Result<Option<Subject>, NoMemory>
    requires { HaveUtf8Names after.now }
    ensures { IfOk result (λ s. option_map subject_of s ≡ line.after_name (named name after.now)) }
{
    if begins_partition(after) {
        return match partition(alloc, &after[1..])? {
            Some(part) => Ok(Some(Subject::NameAndPartition(name, part))),
            None => Ok(None),
        };
    }
    if is_ended(after) {
        Ok(Some(Subject::Name(name)))
    } else {
        Ok(None)
    }
}

fn begins_partition(toks: &[Tok]) -> bool
    ensures { result ≡ begins_with (is_sign (":" ∷ [])) toks.now }
{
    !toks.is_empty() && is_colon(&toks[0])
}

/// The partition's name after a `:`; None where there is none, or where it doesn't end the statement.
fn partition(alloc: Global, toks: &[Tok]) -> Result<Option<Text>, NoMemory>
    requires { HaveUtf8Names toks.now }
    ensures { IfOk result (λ part. (of : List ℕ → line.Subject) → option_map of part ≡ line.partition of toks.now) }
{
    match read_dotted(alloc, toks)? {
        Some(Dotted { name, after }) => Ok(ended(name, after)),
        None => Ok(None),
    }
}

/// The name, where it ends the statement.
fn ended(name: Text, after: &[Tok]) -> Option<Text>
    ensures { (of : List ℕ → line.Subject) → option_map of result ≡ line.ended (named name after.now) (of name) }
{
    if is_ended(after) { Some(name) } else { None }
}
