//! What the settings that words have are within.
ghost use Rattle.std.specs.Prelude.{◌≡◌, ◌≤◌, ◌<◌, ◌^◌, List, ℕ, Some, IfSome};
ghost use Rattle.command_words.specs.Settings.{SolverReading, CheckerReading, solver_settings_of, checker_settings_of};
ghost use Rattle.command_words.specs.Ranges.{AreWithin, AreNamedWithin};

/// The settings that words of `clingcon` have lie in the ranges of their options. This call does nothing:
/// its clause is a law that callers may use.
pub fn solver_settings_are_within()
    ensures { (words : List (List ℕ)) (s : SolverReading) → solver_settings_of words ≡ Some s → AreWithin s }
{}

/// The settings that words of `clingcheck` have lie in the ranges of their options. This call does
/// nothing: its clause is a law that callers may use.
pub fn checker_settings_are_within()
    ensures { (words : List (List ℕ)) (s : CheckerReading) → checker_settings_of words ≡ Some s → AreNamedWithin s }
{}
