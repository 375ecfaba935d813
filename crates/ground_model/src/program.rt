// Ground programs.
ghost use Rattle.std.specs.Prelude.{◌≡◌, ◌<◌, ◌^◌, length, IsTrue};
ghost use Rattle.ground_model.specs.Sound.{are_known, are_sound_rules, is_sound_objective};

use crate::linear::Place;
use crate::rule::GroundRule;
use symbols::{Ends, Listed, SymbolId, SymbolTable};

/// Rules over numbered atoms and integer variables, with what is minimised and what is shown.
///
/// An atom or a variable is named by its place, counted from 1, in `atoms` or `variables`, which hold the
/// symbols that they are printed as. The objective is the sum of `smaller` minus that of `larger`, and it
/// is minimised.
#[derive(Debug, Drop)]
pub struct GroundProgram {
    pub ends: Ends,
    pub atoms: Listed<SymbolId>,
    pub variables: Listed<SymbolId>,
    pub rules: Listed<GroundRule>,
    pub has_objective: bool,
    pub smaller: Listed<Place>,
    pub larger: Listed<Place>,
    pub shown_atoms: Listed<bool>,
    pub shown_variables: Listed<bool>,
    pub symbols: SymbolTable,
    pub ghost few_atoms: { length atoms < 2 ^ 32 },
    pub ghost few_variables: { length variables < 2 ^ 32 },
    pub ghost known_atoms: { IsTrue (are_known (length symbols) atoms) },
    pub ghost known_variables: { IsTrue (are_known (length symbols) variables) },
    pub ghost sound_rules: { IsTrue (are_sound_rules (length symbols) (length atoms) (length variables) ends rules) },
    pub ghost sound_objective: { IsTrue (is_sound_objective (length symbols) (length variables) smaller larger) },
    pub ghost atom_flags: { length shown_atoms ≡ length atoms },
    pub ghost variable_flags: { length shown_variables ≡ length variables },
}
