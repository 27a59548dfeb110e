ghost use Rattle.std.specs.Prelude.{◌≡◌, ◌<◌, ◌≤◌, ◌∷◌, ◌++◌, [], length, slice_index_or, false, MatchOption};
ghost use Rattle.std.specs.Option.{option_map};
ghost use Rattle.std.specs.List.{AllPass, prefix_len};
ghost use Rattle.scan_model.specs.TokenTests.{begins_with};
ghost use Rattle.if_values.specs.UnaryRows.{is_unary_operator};
ghost use Rattle.if_values.specs.Known.{HasEntries, known};
ghost use Rattle.if_values.specs.Items.{token_of, first_of};

use crate::header_name::has_name;
use crate::operators::is_unary;
use crate::token_tests::is_has;
use scan_model::Tok;
use std::marker::Model;

/// What stands next in a condition: a token, or a whole `__has_include(..)` or `__has_include_next(..)` with its value.
#[derive(Clone, Copy)]
pub(crate) enum Item<'a> {
    Plain(&'a Tok),
    Has(bool),
}

/// The tokens that are left of a condition, seen as their list, in which each of these questions is one literal.
#[derive(Drop)]
pub(crate) struct KnownTokens<'a> {
    toks: &'a [Tok],
    has: &'a [bool],
}

impl<'a> Model for KnownTokens<'a> {
    ghost use Rattle.std.specs.Prelude.{List};
    ghost use Rattle.scan_model.specs.declared.token.Tok.{Tok};
    ghost use Rattle.if_values.specs.Known.{HasEntries, known};

    ghost Value = { List Tok };

    ghost view = { λ k. known k.toks.now k.has.now };

    ghost invariant = { λ k. HasEntries k.toks.now k.has.now };
}

impl<'a> KnownTokens<'a> {
    pub fn new(toks: &'a [Tok], has: &'a [bool]) -> KnownTokens<'a>
        requires { HasEntries toks.now has.now }
        ensures { result ≡ known toks.now has.now }
    {
        KnownTokens { toks, has }
    }

    /// What stands next. None exactly at the end.
    pub fn peek(&self) -> Option<Item<'a>>
        ensures { option_map token_of result ≡ first_of self.now }
    {
        first(self.toks, self.has)
    }

    /// Passes what stands next. None exactly at the end.
    pub fn next(&mut self) -> Option<Item<'a>>
        ensures { MatchOption result (self.old ≡ []) (λ item. self.old ≡ token_of item ∷ self.new) }
    {
        if self.toks.is_empty() {
            return None;
        }
        let Passed { item, toks, has } = step(self.toks, self.has);
        *self = KnownTokens { toks, has };
        Some(item)
    }

    /// Passes the unary operators that stand next in a row, and gives them.
    pub fn pass_row(&mut self) -> &'a [Tok]
        ensures row { self.old ≡ result.now ++ self.new }
        ensures all { AllPass is_unary_operator result.now }
        ensures ended { begins_with is_unary_operator self.new ≡ false }
    {
        let (row, toks) = self.toks.split_at(row_len(self.toks));
        *self = KnownTokens {
            toks,
            has: self.has,
        };
        row
    }
}

// How many unary operators stand in front in a row.
fn row_len(toks: &[Tok]) -> usize
    ensures value { result ≡ prefix_len is_unary_operator toks.now }
    ensures within { result ≤ length toks.now }
{
    for (i, tok) in toks.iter().enumerate() {
        if !is_unary(tok) {
            return i;
        }
    }
    toks.len()
}

// What stands first, and what is left after it.
#[derive(Clone, Copy)]
struct Passed<'a> {
    item: Item<'a>,
    toks: &'a [Tok],
    has: &'a [bool],
}

fn first_entry(has: &[bool]) -> bool
    requires { 0 < length has.now }
    ensures { result ≡ slice_index_or has.now 0 false }
{
    has[0]
}

fn first<'a>(toks: &'a [Tok], has: &'a [bool]) -> Option<Item<'a>>
    requires { HasEntries toks.now has.now }
    ensures { option_map token_of result ≡ first_of (known toks.now has.now) }
{
    if toks.is_empty() {
        return None;
    }
    let tok = &toks[0];
    if is_has(tok) {
        Some(Item::Has(first_entry(has)))
    } else {
        Some(Item::Plain(tok))
    }
}

fn step<'a>(toks: &'a [Tok], has: &'a [bool]) -> Passed<'a>
    requires some { 0 < length toks.now }
    requires entries { HasEntries toks.now has.now }
    ensures known { known toks.now has.now ≡ token_of result.item ∷ known result.toks.now result.has.now }
    ensures entries { HasEntries result.toks.now result.has.now }
{
    let tok = &toks[0];
    let (_, rest) = toks.split_at(1);
    if !is_has(tok) {
        return Passed {
            item: Item::Plain(tok),
            toks: rest,
            has,
        };
    }
    match has_name(rest) {
        Some(name) => {
            let known = first_entry(has);
            let (_, toks) = name.after.split_at(1);
            let (_, has) = has.split_at(1);
            Passed {
                item: Item::Has(known),
                toks,
                has,
            }
        }
        None => unreachable!(),
    }
}
