// Heads of rules.
use crate::terms::{comparison, literal, sum, tuples};
use ground_model::{BodyLit, Bound, ChoiceItem, GroundChoice, GroundHead, IntSet, TheoryHead};
use std::alloc::Global;
use symbols::{Listed, Memory};

// The atom of a word.
fn atom(word: &str) -> u32 {
    match literal(word) {
        BodyLit::Atom(atom, _) => atom,
        BodyLit::Theory(_, _) => 0,
    }
}

// An atom, and its condition after `/`.
fn choice_item(alloc: Global, word: &str) -> Result<ChoiceItem, Memory> {
    let mut condition = Listed::new(alloc);
    let (name, literals) = word.split_once('/').unwrap_or((word, ""));
    if !literals.is_empty() {
        condition.push(literal(literals))?;
    }
    Ok(ChoiceItem {
        atom: atom(name),
        condition,
    })
}

// The bound of a word.
fn bound(word: &str) -> Option<Bound> {
    let (rel, value) = comparison(word)?;
    Some(Bound { rel, value })
}

// A choice among the words after its two bounds.
fn choice(alloc: Global, words: &[&str]) -> Result<GroundChoice, Memory> {
    let mut items = Listed::new(alloc);
    let mut bounds = (None, None);
    if let [left, right, atoms @ ..] = words {
        bounds = (bound(left), bound(right));
        for word in atoms {
            items.push(choice_item(alloc, word)?)?;
        }
    }
    let (left, right) = bounds;
    Ok(GroundChoice { items, left, right })
}

// The numbers from the least to the greatest, for the variable of the last word.
fn domain(alloc: Global, low: &str, high: &str, variable: &str) -> Result<TheoryHead, Memory> {
    let low: i32 = low.parse().unwrap_or(0);
    let high: i32 = high.parse().unwrap_or(0);
    let variable = variable.parse().unwrap_or(0);
    let ends = (low, high.max(low));
    let intervals = Listed::from_slice(alloc, &[ends])?;
    Ok(TheoryHead::Domain(IntSet { intervals }, variable))
}

// The head of the words.
pub(crate) fn head(alloc: Global, words: &[&str]) -> Result<GroundHead, Memory> {
    match words {
        [] => Ok(GroundHead::Nothing),
        ["sum", terms @ ..] => Ok(GroundHead::Theory(TheoryHead::Relation(sum(alloc, terms)?))),
        ["dom", low, high, variable] => Ok(GroundHead::Theory(domain(alloc, low, high, variable)?)),
        ["distinct", terms @ ..] => Ok(GroundHead::Theory(TheoryHead::Distinct(tuples(
            alloc, terms,
        )?))),
        ["disjoint", terms @ ..] => Ok(GroundHead::Theory(TheoryHead::Disjoint(tuples(
            alloc, terms,
        )?))),
        ["choose", items @ ..] => Ok(GroundHead::Choice(choice(alloc, items)?)),
        [word, ..] => Ok(GroundHead::Atom(atom(word))),
    }
}
