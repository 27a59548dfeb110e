ghost use Rattle.std.specs.Prelude.{◌≡◌, ◌≤◌, length, OnSome, Some, None, [], ◌∷◌};
ghost use Rattle.std.specs.Option.{option_map};
ghost use Rattle.scan_model.specs.declared.token.Kind.TheVariants.{Ident};
ghost use Rattle.scan_model.specs.TokenTests.{is_of, is_open_paren, is_close_paren, is_sign};
ghost use Rattle.scan_model.specs.ConditionTree.{attribute_value, attribute, identifier};
ghost use Rattle.scan_model.specs.ConditionValue.{of_bool};
ghost use Rattle.if_values.specs.Items.{token_of};
ghost use Rattle.if_values.specs.Operands.{literal_operand};
ghost use Rattle.if_values.specs.Leaves.{leaf_read, attributed, attribute_named};
ghost use Rattle.if_values.specs.Reading.{Gives, read_of};

use crate::arithmetic::{of_bool, signed};
use crate::characters::character_value;
use crate::integer::integer;
use crate::known_tokens::{Item, KnownTokens};
use crate::operand::{Operand, literal};
use crate::token_tests::{is_defined, is_double_colon, is_has, is_has_attribute, is_true};
use scan_model::{CondValue, Kind, Tok};
use word_table::attribute_value;

/// A `__has_include(..)` or `__has_include_next(..)`.
pub(crate) fn known_leaf(known: bool) -> Operand
    ensures { result ≡ literal_operand (of_bool known) }
{
    literal(of_bool(known))
}

fn literal_of(value: Option<CondValue>) -> Option<Operand>
    ensures { result ≡ option_map literal_operand value }
{
    match value {
        Some(value) => Some(literal(value)),
        None => None,
    }
}

// The number of a standard attribute, and 0 for another one; none where no identifier stands here.
fn attribute_named(item: Item<'_>) -> Option<u32>
    ensures { result ≡ attribute_named (token_of item.entry) }
{
    match item {
        Item::Plain(tok) => {
            if tok.is_ident() {
                Some(attribute_value(tok.text.as_slice()).unwrap_or(0))
            } else {
                None
            }
        }
        Item::Has(_) => None,
    }
}

fn is_open(item: Item<'_>) -> bool
    ensures { result ≡ is_open_paren (token_of item.entry) }
{
    match item {
        Item::Plain(tok) => tok.is_open_paren(),
        Item::Has(_) => false,
    }
}

fn is_close(item: Item<'_>) -> bool
    ensures { result ≡ is_close_paren (token_of item.entry) }
{
    match item {
        Item::Plain(tok) => tok.is_close_paren(),
        Item::Has(_) => false,
    }
}

fn is_scope(item: Item<'_>) -> bool
    ensures { result ≡ is_sign ("::" ∷ []) (token_of item.entry) }
{
    match item {
        Item::Plain(tok) => is_double_colon(tok),
        Item::Has(_) => false,
    }
}

fn is_name(item: Item<'_>) -> bool
    ensures { result ≡ is_of Ident (token_of item.entry) }
{
    match item {
        Item::Plain(tok) => tok.is_ident(),
        Item::Has(_) => false,
    }
}

// What follows a `__has_cpp_attribute` ([cpp.cond]): `( X )`, or `( X :: Y )`, which is 0.
fn attribute(at: &mut KnownTokens<'_>) -> Option<u32>
    ensures value { attribute at.old ≡ option_map (attributed at.new) result }
    ensures shorter { OnSome result (length at.new ≤ length at.old) }
{
    let open = at.next()?;
    let name = at.next()?;
    let third = at.next()?;
    let value = attribute_named(name)?;
    if !is_open(open) {
        return None;
    }
    if is_close(third) {
        return Some(value);
    }
    let scoped = at.next()?;
    let last = at.next()?;
    if is_scope(third) & is_name(scoped) & is_close(last) {
        Some(0)
    } else {
        None
    }
}

// `true` is 1, and any other identifier 0.
fn identifier(tok: &Tok, at: &mut KnownTokens<'_>) -> Option<Operand>
    ensures value { Gives (option_map read_of (identifier tok.now at.old)) result at.new }
    ensures shorter { OnSome result (length at.new ≤ length at.old) }
{
    if is_has_attribute(tok) {
        return match attribute(at) {
            Some(value) => Some(literal(signed(value as u64))),
            None => None,
        };
    }
    if is_defined(tok) | is_has(tok) {
        return None;
    }
    Some(literal(of_bool(is_true(tok))))
}

/// A literal or an identifier, of which the first token has been passed. None exactly where it is neither, or has no
/// value.
pub(crate) fn leaf(tok: &Tok, at: &mut KnownTokens<'_>) -> Option<Operand>
    ensures value { Gives (leaf_read tok.now at.old) result at.new }
    ensures shorter { OnSome result (length at.new ≤ length at.old) }
{
    match tok.kind {
        Kind::Number => literal_of(integer(tok.text.as_slice())),
        Kind::Char => literal_of(character_value(tok.text.as_slice())),
        Kind::Ident => identifier(tok, at),
        _ => None,
    }
}
