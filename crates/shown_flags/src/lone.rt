// Tuples that are one variable, marked.
ghost use Rattle.std.specs.Prelude.{◌≡◌, ◌<◌, ◌||◌, ℕ, length, IfOk};
ghost use Rattle.std.specs.List.{AllByRecursion, list_any};
ghost use Rattle.symbol_rules.specs.Reading.{HasPlace};
ghost use Rattle.shown_flags.specs.inner.Lone.{lone_variable as lone_test, is_lone, flag_of};

use program_meaning::CollectedPlace;
use std::alloc::Global;
use symbols::{Memory, SymbolId};

// The variable that a tuple's first place is.
#[tactic(auto, using(crate::proofs::LoneLemmas::lone_many, crate::proofs::LoneLemmas::lone_one))]
fn lone_variable(place: &CollectedPlace) -> Option<SymbolId>
    ensures { result ≡ lone_test place.now }
{
    let pairs = place.linear.pairs.items();
    if pairs.len() != 1 {
        return None;
    }
    let (variable, coefficient) = pairs[0];
    if coefficient == 1 && place.linear.constant == 0 {
        return Some(variable);
    }
    None
}

// Marks the variable that a tuple is.
fn mark(marks: &mut [bool], place: &CollectedPlace)
    requires { HasPlace (length marks.old) place.now }
    ensures { (id : ℕ) → flag_of marks.new id ≡ (is_lone id place.now || flag_of marks.old id) }
{
    match lone_variable(place) {
        Some(id) => marks[id.place()] = true,
        None => {}
    }
}

// For each of so many symbols whether a tuple is that variable.
pub(crate) fn lone_variables(
    alloc: Global,
    symbols: usize,
    places: &[CollectedPlace],
) -> Result<Vec<bool>, Memory>
    requires { AllByRecursion (HasPlace symbols) places.now }
    ensures size { IfOk result (λ marks. length marks.items ≡ symbols) }
    ensures marks { IfOk result (λ marks. (id : ℕ) → flag_of marks.items id ≡ list_any (is_lone id) places.now) }
{
    let mut marks = vec![in alloc; false; symbols]?;
    for place in places {
        mark(&mut marks, place);
    }
    Ok(marks)
}
