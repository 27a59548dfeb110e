ghost use Rattle.std.specs.Prelude.{◌≡◌, ◌≤◌, ◌<◌, ◌+◌, IfSome, length, drop};
ghost use Rattle.std.specs.Option.{option_map};
ghost use Rattle.scan_model.specs.HeaderName.{name_of, angled, header_or_name, has_name, has_at, next_has};
ghost use Rattle.if_values.specs.Names.{shape, name_shape, past_angle};

use crate::token_tests::{is_has, is_has_next};
use scan_model::{Form, HasAt, HasNext, Tok};

/// The form of a header's name, and what follows the name ([cpp.include]).
#[derive(Clone, Copy)]
pub(crate) struct Name<'a> {
    pub form: Form,
    pub after: &'a [Tok],
}

fn past_angle(toks: &[Tok]) -> Option<&[Tok]>
    ensures value { option_map (λ ts. ts.now) result ≡ past_angle toks.now }
    ensures within { IfSome result (λ ts. length ts.now < length toks.now) }
{
    'angle: for (i, tok) in toks.iter().enumerate() {
        if tok.is_greater() {
            return Some(&toks[i + 1..]);
        }
    }
    None
}

// What follows a `<`: a name that isn't empty, up to the first `>`.
fn angled(toks: &[Tok]) -> Option<Name<'_>>
    ensures value { option_map name_shape result ≡ option_map shape (angled toks.now) }
    ensures within { IfSome result (λ n. length n.after.now < length toks.now) }
{
    if toks.is_empty() || toks[0].is_greater() {
        return None;
    }
    let after = past_angle(&toks[1..])?;
    Some(Name {
        form: Form::Angled,
        after,
    })
}

#[tactic(auto, unfolding(scan_model::specs::HeaderName::name_of))]
fn name_of(toks: &[Tok]) -> Option<Name<'_>>
    ensures value { option_map name_shape result ≡ option_map shape (name_of toks.now) }
    ensures within { IfSome result (λ n. length n.after.now < length toks.now) }
{
    if toks.is_empty() {
        return None;
    }
    if toks[0].is_less() {
        return angled(&toks[1..]);
    }
    if toks[0].is_plain_string() && toks[0].text.as_slice().len() > 2 {
        Some(Name {
            form: Form::Quoted,
            after: &toks[1..],
        })
    } else {
        None
    }
}

fn header_or_name(toks: &[Tok]) -> Option<Name<'_>>
    ensures value { option_map name_shape result ≡ option_map shape (header_or_name toks.now) }
    ensures within { IfSome result (λ n. length n.after.now < length toks.now) }
{
    if toks.is_empty() {
        return None;
    }
    if toks[0].is_header() {
        Some(Name {
            form: Form::of(toks[0].text.as_slice()),
            after: &toks[1..],
        })
    } else {
        name_of(toks)
    }
}

/// The name in parentheses that these tokens begin with, which follow the word that asks; what follows it begins with
/// the `)`. None exactly where they begin with no name in parentheses.
pub(crate) fn has_name(toks: &[Tok]) -> Option<Name<'_>>
    ensures value { option_map name_shape result ≡ option_map shape (has_name toks.now) }
    ensures within { IfSome result (λ n. length n.after.now + 2 ≤ length toks.now) }
    ensures closed { IfSome result (λ n. 0 < length n.after.now) }
{
    if toks.is_empty() || !toks[0].is_open_paren() {
        return None;
    }
    let name = header_or_name(&toks[1..])?;
    if name.after.is_empty() || !name.after[0].is_close_paren() {
        return None;
    }
    Some(name)
}

// The `__has_include`, or with `next` the `__has_include_next`, at this place.
fn has_at(toks: &[Tok], place: usize, next: bool) -> HasNext
    requires { place < length toks.now }
    ensures { result ≡ has_at next (length toks.now) place (has_name (drop (place + 1) toks.now)) }
{
    match has_name(&toks[place + 1..]) {
        None => HasNext::Bad(place),
        Some(name) => HasNext::At(HasAt {
            first: place + 2,
            past: toks.len() - name.after.len(),
            form: name.form,
            next,
        }),
    }
}

/// The first `__has_include` or `__has_include_next` at a place or after it ([cpp.cond]): which of both it is, where the
/// name in its parentheses stands and in which form it is written, or the place of the word itself where no name in
/// parentheses follows it. `End` exactly where there is none.
#[tactic(auto, unfolding(scan_model::specs::HeaderName::next_has))]
pub fn next_has(toks: &[Tok], from: usize) -> HasNext
    requires { from ≤ length toks.now }
    ensures { result ≡ next_has toks.now from }
{
    'places: for place in from..toks.len() {
        if is_has(&toks[place]) {
            return has_at(toks, place, is_has_next(&toks[place]));
        }
    }
    HasNext::End
}
