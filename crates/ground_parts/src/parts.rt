// The parts of a ground program.
ghost use Rattle.std.specs.Prelude.{◌≡◌, ◌↔◌, IsTrue, IfOk, IsSome, IfSome};
ghost use Rattle.ground_parts.specs.Parts.{has_sound_names as names_test, make_a_program as parts_test, parts_of};

use crate::numbers::are_known;
use crate::objective::is_sound_objective;
use crate::rules::{Sizes, are_sound_rules};
use crate::scratch::Scratch;
use ground_model::{GroundProgram, GroundRule, Place};
use std::alloc::Global;
use symbols::{Ends, Listed, Memory, SymbolId, SymbolTable};

/// The fields of a `GroundProgram`, which may break its invariant.
#[derive(Debug, Drop)]
pub struct GroundParts {
    pub ends: Ends,
    pub atoms: Listed<SymbolId>,
    pub variables: Listed<SymbolId>,
    pub rules: Listed<GroundRule>,
    pub has_objective: bool,
    pub smaller: Listed<Place>,
    pub larger: Listed<Place>,
    pub shown_atoms: Listed<bool>,
    pub shown_variables: Listed<bool>,
    pub symbols: SymbolTable,
}

impl GroundParts {
    /// The ground program with exactly these fields, `None` where they break its invariant.
    ///
    /// It takes time linear in the parts, where tuples are compared by their hash; the program takes over the
    /// parts, and none is copied.
    pub fn checked(self, alloc: Global) -> Result<Option<GroundProgram>, Memory>
        ensures some { IfOk result (λ found. IsSome found ↔ IsTrue (parts_test self)) }
        ensures same { IfOk result (λ found. IfSome found (λ program. parts_of program ≡ self)) }
    {
        if !make_a_program(alloc, &self)? {
            return Ok(None);
        }
        Ok(Some(GroundProgram {
            ends: self.ends,
            atoms: self.atoms,
            variables: self.variables,
            rules: self.rules,
            has_objective: self.has_objective,
            smaller: self.smaller,
            larger: self.larger,
            shown_atoms: self.shown_atoms,
            shown_variables: self.shown_variables,
            symbols: self.symbols,
        }))
    }
}

// Whether parts meet the invariant of a ground program.
fn make_a_program(alloc: Global, parts: &GroundParts) -> Result<bool, Memory>
    ensures { IfOk result (λ yes. yes ≡ parts_test parts.now) }
{
    if !has_sound_names(parts) {
        return Ok(false);
    }
    let sizes = Sizes {
        symbols: parts.symbols.len(),
        atoms: parts.atoms.len(),
        variables: parts.variables.len(),
        ends: parts.ends,
    };
    let mut scratch = Scratch::new(alloc, sizes.variables)?;
    if !are_sound_rules(alloc, &sizes, parts.rules.items(), &mut scratch)? {
        return Ok(false);
    }
    is_sound_objective(
        alloc,
        sizes.symbols,
        sizes.variables,
        parts.smaller.items(),
        parts.larger.items(),
        &mut scratch,
    )
}

// Whether atoms and variables are few enough to be numbered, are symbols of the table and have a flag each.
fn has_sound_names(parts: &GroundParts) -> bool
    ensures { result ≡ names_test parts.now }
{
    let symbols = parts.symbols.len();
    parts.atoms.len() < 4_294_967_296
        && parts.variables.len() < 4_294_967_296
        && are_known(symbols, parts.atoms.items())
        && are_known(symbols, parts.variables.items())
        && parts.shown_atoms.len() == parts.atoms.len()
        && parts.shown_variables.len() == parts.variables.len()
}
