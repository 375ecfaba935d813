// Linear terms and tuples over the numbers of variables.
ghost use Rattle.std.specs.Prelude.{◌≡◌, ◌<◌, length, map, slice_index, IfOk};
ghost use Rattle.std.specs.List.{AllByRecursion};
ghost use Rattle.symbol_rules.specs.Reading.{HasLinear, HasPlace, HasRelation};
ghost use Rattle.numbered_rules.specs.inner.ByNumber.{linear_by, place_by, relation_by};

use ground_model::{Linear, Place, Relation};
use program_meaning::{CollectedPlace, SymbolLinear};
use std::alloc::Global;
use symbol_rules::SymbolRelation;
use symbols::{Listed, Memory, SymbolId};

// The number of a symbol.
pub(crate) fn number_of(numbers: &[u32], id: SymbolId) -> u32
    requires { id < length numbers.now }
    ensures { result ≡ slice_index numbers.now id }
{
    numbers[id.place()]
}

// A linear term over numbers.
pub(crate) fn linear(
    alloc: Global,
    numbers: &[u32],
    linear: &SymbolLinear,
) -> Result<Linear, Memory>
    requires { HasLinear (length numbers.now) linear.now }
    ensures { IfOk result (λ made. made ≡ linear_by numbers.now linear.now) }
{
    let mut pairs = Listed::new(alloc);
    for pair in linear.pairs.items() {
        pairs.push((number_of(numbers, pair.0), pair.1))?;
    }
    Ok(Linear {
        pairs,
        constant: linear.constant,
    })
}

// A tuple over numbers.
fn place(alloc: Global, numbers: &[u32], place: &CollectedPlace) -> Result<Place, Memory>
    requires { HasPlace (length numbers.now) place.now }
    ensures { IfOk result (λ made. made ≡ place_by numbers.now place.now) }
{
    let first = linear(alloc, numbers, &place.linear)?;
    let rest = Listed::from_slice(alloc, place.rest.items())?;
    Ok(Place {
        linear: first,
        duration: place.duration,
        rest,
    })
}

// Tuples over the numbers of their variables.
pub(crate) fn places(
    alloc: Global,
    numbers: &[u32],
    places: &[CollectedPlace],
) -> Result<Listed<Place>, Memory>
    requires { AllByRecursion (HasPlace (length numbers.now)) places.now }
    ensures { IfOk result (λ made. made ≡ map (place_by numbers.now) places.now) }
{
    let mut made = Listed::new(alloc);
    for one in places {
        made.push(place(alloc, numbers, one)?)?;
    }
    Ok(made)
}

// A relation over numbers.
pub(crate) fn relation(
    alloc: Global,
    numbers: &[u32],
    relation: &SymbolRelation,
) -> Result<Relation, Memory>
    requires { HasRelation (length numbers.now) relation.now }
    ensures { IfOk result (λ made. made ≡ relation_by numbers.now relation.now) }
{
    let elements = places(alloc, numbers, relation.elements.items())?;
    let right = linear(alloc, numbers, &relation.right)?;
    Ok(Relation {
        elements,
        rel: relation.rel,
        right,
    })
}
