// What element instances come to, put together.
ghost use Rattle.std.specs.Prelude.{◌++◌, ◌∷◌, [], List, OnOk};
ghost use Rattle.symbols.specs.Symbol.{Symbol};
ghost use Rattle.collected_elements.specs.declared.judged.JudgedElement.{JudgedElement as Judged};
ghost use Rattle.collected_elements.specs.Judged.{IsKnownElement};
ghost use Rattle.collected_atoms.specs.Gathering.{IsGathered, AreKnownPlaces};

use collected_elements::{JudgedElement, JudgedTerm};
use program_meaning::CollectedPlace;
use std::alloc::Global;
use symbols::{Listed, Memory, Rel};

/// What the instances of a theory atom's elements come to: whether one is not linear, whether a part of one is too
/// large, and their tuples or, of `&dom`, their ends, as often as they are given.
#[derive(Drop)]
pub struct Gathered {
    pub not_linear: bool,
    pub large: bool,
    pub places: Listed<CollectedPlace>,
    pub ranges: Listed<(i32, i32)>,
}

/// A guard, and what its right side comes to.
#[derive(Drop)]
pub struct JudgedGuard {
    pub rel: Rel,
    pub right: JudgedTerm,
}

/// What no instance comes to.
pub fn nothing_gathered(alloc: Global) -> Gathered
    ensures gathered { IsGathered [] result }
    ensures known { (symbols : List Symbol) → AreKnownPlaces symbols result.places }
{
    Gathered {
        not_linear: false,
        large: false,
        places: Listed::new(alloc),
        ranges: Listed::new(alloc),
    }
}

/// Adds what an instance comes to, or leaves all as it was.
pub fn gather(gathered: &mut Gathered, judged: JudgedElement) -> Result<(), Memory>
    ensures gathered { OnOk result ((all : List Judged) → IsGathered all gathered.old → IsGathered (all ++ judged ∷ []) gathered.new) }
    ensures known { OnOk result ((symbols : List Symbol) → AreKnownPlaces symbols gathered.old.places → IsKnownElement symbols judged → AreKnownPlaces symbols gathered.new.places) }
{
    match judged {
        JudgedElement::NotLinear => {
            gathered.not_linear = true;
            Ok(())
        }
        JudgedElement::Large => {
            gathered.large = true;
            Ok(())
        }
        JudgedElement::Nothing => Ok(()),
        JudgedElement::Tuple(place) => gathered.places.push(place),
        JudgedElement::Range(low, high) => gathered.ranges.push((low, high)),
    }
}
