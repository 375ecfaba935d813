// How many atoms, bodies, constraints and variables a trail is over.
ghost use Rattle.std.specs.Prelude.{◌≡◌};
ghost use Rattle.trail.specs.Assignment.{counts_of};

use literals::Counts;
use symbols::Ends;

/// How many atoms, bodies, constraints and variables there are, each numbered from 1, and the ends of
/// every variable.
#[derive(Clone, Copy, Debug, PartialEq, Eq)]
pub struct Shape {
    pub atoms: u32,
    pub bodies: u32,
    pub constraints: u32,
    pub variables: u32,
    pub ends: Ends,
}

impl Shape {
    /// How many there are of each kind.
    #[inline]
    pub fn counts(&self) -> Counts
        ensures { result ≡ counts_of self.now }
    {
        Counts {
            atoms: self.atoms,
            bodies: self.bodies,
            constraints: self.constraints,
            variables: self.variables,
        }
    }
}
