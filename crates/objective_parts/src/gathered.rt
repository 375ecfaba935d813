// Tuples of directives, put together by name.
ghost use Rattle.std.specs.Prelude.{◌≡◌, ◌++◌, IfOk, OnOk};
ghost use Rattle.syntax_tree.specs.declared.literal.TheoryName.TheVariants as name;
ghost use Rattle.directed_tuples.specs.Tuples.{places_of, tuples_of};

use directed_tuples::Directive;
use program_meaning::CollectedPlace;
use std::alloc::Global;
use symbols::{Listed, Memory};
use syntax_tree::TheoryName;

// The tuples by name, as they came.
#[derive(Drop)]
pub(crate) struct TuplesByName {
    pub(crate) smaller: Listed<CollectedPlace>,
    pub(crate) larger: Listed<CollectedPlace>,
    pub(crate) shown: Listed<CollectedPlace>,
}

// The tuples of all directives.
#[tactic(auto, using(crate::proofs::TupleLemmas::tuples_none, crate::proofs::TupleLemmas::tuples_more))]
pub(crate) fn gathered(alloc: Global, directives: Listed<Directive>) -> Result<TuplesByName, Memory>
    ensures smaller { IfOk result (λ made. made.smaller ≡ tuples_of name.Minimize directives) }
    ensures larger { IfOk result (λ made. made.larger ≡ tuples_of name.Maximize directives) }
    ensures shown { IfOk result (λ made. made.shown ≡ tuples_of name.Show directives) }
{
    let mut smaller = Listed::new(alloc);
    let mut larger = Listed::new(alloc);
    let mut shown = Listed::new(alloc);
    for directive in directives.into_vec() {
        add(directive, &mut smaller, &mut larger, &mut shown)?;
    }
    Ok(TuplesByName {
        smaller,
        larger,
        shown,
    })
}

// Adds the tuples of a directive to those with its name.
#[tactic(auto, using(crate::proofs::TupleLemmas::append_none))]
fn add(
    directive: Directive,
    smaller: &mut Listed<CollectedPlace>,
    larger: &mut Listed<CollectedPlace>,
    shown: &mut Listed<CollectedPlace>,
) -> Result<(), Memory>
    ensures smaller { OnOk result (smaller.new ≡ smaller.old ++ places_of name.Minimize directive) }
    ensures larger { OnOk result (larger.new ≡ larger.old ++ places_of name.Maximize directive) }
    ensures shown { OnOk result (shown.new ≡ shown.old ++ places_of name.Show directive) }
{
    let Directive { name, places } = directive;
    match name {
        TheoryName::Minimize => push_all(smaller, places),
        TheoryName::Maximize => push_all(larger, places),
        TheoryName::Show => push_all(shown, places),
        TheoryName::Sum => Ok(()),
        TheoryName::Diff => Ok(()),
        TheoryName::Distinct => Ok(()),
        TheoryName::Disjoint => Ok(()),
        TheoryName::Dom => Ok(()),
        TheoryName::Unknown => Ok(()),
    }
}

// Moves tuples behind others.
fn push_all(
    into: &mut Listed<CollectedPlace>,
    mut places: Listed<CollectedPlace>,
) -> Result<(), Memory>
    ensures { OnOk result (into.new ≡ into.old ++ places) }
{
    into.append_list(&mut places)
}
