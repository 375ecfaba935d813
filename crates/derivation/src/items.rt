// Literals and the other items of lists, as the bytes from here on begin with them.
ghost use Rattle.std.specs.Prelude.{◌≡◌, option_map};
ghost use Rattle.derivation.specs.Reading.{bound_at, named_at, lit_at, lit_item as item_of_lits, pivot_item as item_of_pivots, number_item as item_of_numbers, atom_item as item_of_atoms, value_item as item_of_values};

use crate::numbers::{byte_at, skip, small, value, wide};
use literals::Lit;

// A bound, behind its letter.
#[tactic(auto, unfolding(crate::specs::Reading::bound_at))]
fn bound(bytes: &[u8]) -> Option<(Lit, &[u8])>
    ensures { option_map (λ x. (x.0, x.1.now)) result ≡ bound_at bytes.now }
{
    let (variable, rest) = small(bytes)?;
    let (number, after) = value(skip(rest, 2))?;
    if byte_at(rest, 0) == b'<' {
        Some((Lit::AtMost(variable, number), after))
    } else {
        Some((Lit::AtLeast(variable, number), after))
    }
}

// A literal, behind its sign.
#[tactic(auto, unfolding(crate::specs::Reading::named_at))]
fn named(sign: bool, bytes: &[u8]) -> Option<(Lit, &[u8])>
    ensures { option_map (λ x. (x.0, x.1.now)) result ≡ named_at sign bytes.now }
{
    let kind = byte_at(bytes, 0);
    if kind == b'v' {
        return bound(skip(bytes, 1));
    }
    if kind == b'a' {
        let (number, rest) = small(skip(bytes, 1))?;
        return Some((Lit::Atom(number, sign), rest));
    }
    if kind == b'b' {
        let (number, rest) = small(skip(bytes, 1))?;
        return Some((Lit::Body(number, sign), rest));
    }
    if kind == b'c' {
        let (number, rest) = small(skip(bytes, 1))?;
        return Some((Lit::Constraint(number, sign), rest));
    }
    None
}

// A literal.
#[tactic(auto, unfolding(crate::specs::Reading::lit_at))]
fn literal(bytes: &[u8]) -> Option<(Lit, &[u8])>
    ensures { option_map (λ x. (x.0, x.1.now)) result ≡ lit_at bytes.now }
{
    if byte_at(bytes, 0) == b'~' {
        named(false, skip(bytes, 1))
    } else {
        named(true, bytes)
    }
}

// A literal, behind its blank.
#[tactic(auto, unfolding(crate::specs::Reading::lit_item))]
pub(crate) fn lit_item(bytes: &[u8]) -> Option<(Lit, &[u8])>
    ensures { option_map (λ x. (x.0, x.1.now)) result ≡ item_of_lits bytes.now }
{
    literal(skip(bytes, 1))
}

// A literal and an id, each behind its blank.
#[tactic(auto, unfolding(crate::specs::Reading::pivot_item))]
pub(crate) fn pivot_item(bytes: &[u8]) -> Option<((Lit, u64), &[u8])>
    ensures { option_map (λ x. (x.0, x.1.now)) result ≡ item_of_pivots bytes.now }
{
    let (lit, rest) = lit_item(bytes)?;
    let (id, after) = wide(skip(rest, 1))?;
    Some(((lit, id), after))
}

// A number, behind its blank.
#[tactic(auto, unfolding(crate::specs::Reading::number_item))]
pub(crate) fn number_item(bytes: &[u8]) -> Option<(u32, &[u8])>
    ensures { option_map (λ x. (x.0, x.1.now)) result ≡ item_of_numbers bytes.now }
{
    small(skip(bytes, 1))
}

// An atom of an answer, behind its blank.
#[tactic(auto, unfolding(crate::specs::Reading::atom_item))]
pub(crate) fn atom_item(bytes: &[u8]) -> Option<(u32, &[u8])>
    ensures { option_map (λ x. (x.0, x.1.now)) result ≡ item_of_atoms bytes.now }
{
    if byte_at(bytes, 1) == b'a' {
        small(skip(bytes, 2))
    } else {
        None
    }
}

// A variable with its value, behind its blank.
#[tactic(auto, unfolding(crate::specs::Reading::value_item))]
pub(crate) fn value_item(bytes: &[u8]) -> Option<((u32, i32), &[u8])>
    ensures { option_map (λ x. (x.0, x.1.now)) result ≡ item_of_values bytes.now }
{
    let (variable, rest) = small(skip(bytes, 2))?;
    let (number, after) = value(skip(rest, 1))?;
    Some(((variable, number), after))
}
