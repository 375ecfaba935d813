// Unfounded sets on a trail.
ghost use Rattle.std.specs.Prelude.{◌≡◌, IfOk, IfSome, IfNone};
ghost use Rattle.linear_normal.specs.Numbering.{numbering};
ghost use Rattle.unfounded_sets.specs.Dependence.{dependence_of, Fits};
ghost use Rattle.unfounded_sets.specs.Loops.{IsLoopFree, IsLoop, AreSupported};

use crate::dependence::positive_rows;
use crate::groups::{Groups, find_groups};
use crate::loops::find_loop;
use crate::lost::find_lost;
use crate::rows::Rows;
use crate::sources::{Sources, no_sources};
use ground_model::GroundProgram;
use linear_normal::{Numbered, Support};
use literals::Reason;
use std::alloc::Global;
use std::marker::Model;
use symbols::{Listed, Memory};
use trail::Trail;

/// The positive dependence of a ground program. Clauses see it as the number of atoms, the positive atoms
/// of each body, and the supports.
#[derive(Debug, Drop)]
pub struct Unfounded {
    atoms: u32,
    bodies: Rows,
    supports: Listed<Support>,
    groups: Groups,
    sources: Sources,
}

impl Model for Unfounded {
    ghost use Rattle.unfounded_sets.specs.Dependence.{Dependence};
    ghost use Rattle.unfounded_sets.specs.inner.Outer.{IsWhole, of_parts};
    ghost use Rattle.unfounded_sets.specs.inner.Kept.{AreGrouped, AreSourced};

    ghost Value = { Dependence };

    ghost view = { λ u. of_parts u.atoms u.bodies u.supports };

    ghost invariant = { λ u. IsWhole (of_parts u.atoms u.bodies u.supports) × AreGrouped u.bodies u.supports u.groups × AreSourced u.bodies u.supports u.groups u.sources };
}

impl Unfounded {
    /// The dependence of the program that has this numbering; it stands for that program from then on.
    /// Linear in both.
    pub fn new(
        alloc: Global,
        ground: &GroundProgram,
        numbered: &Numbered,
    ) -> Result<Unfounded, Memory>
        requires { numbered.now ≡ numbering ground.now }
        ensures { IfOk result (λ u. u ≡ dependence_of ground.now) }
    {
        let bodies = positive_rows(alloc, numbered.bodies.items())?;
        let supports = Listed::from_slice(alloc, numbered.supports.items())?;
        let atoms = ground.atoms.len() as u32;
        let groups = find_groups(alloc, atoms, &bodies, supports.items())?;
        let sources = no_sources(alloc, atoms, &bodies, supports.items(), &groups)?;
        Ok(Unfounded {
            atoms,
            bodies,
            supports,
            groups,
            sources,
        })
    }

    /// The loop nogood of an atom that is not false, of an unfounded set of such atoms, where there is one.
    /// The atom's literal stands first; where it is true, all literals are.
    ///
    /// For every trail. Linear in the program: its atoms, its supports, and the positive atoms of bodies.
    pub fn find(&mut self, alloc: Global, trail: &Trail) -> Result<Option<Reason>, Memory>
        requires { Fits self.old trail.now.shape }
        ensures none { IfOk result (λ found. IfNone found (IsLoopFree self.old trail.now)) }
        ensures some { IfOk result (λ found. IfSome found (IsLoop self.old trail.now)) }
        ensures same { self.new ≡ self.old }
    {
        find_loop(
            alloc,
            self.atoms,
            &self.bodies,
            self.supports.items(),
            trail,
        )
    }

    /// The same on a trail at rest, on which each atom that is not false has a support that is not false.
    ///
    /// Where no atom on a cycle has lost its source it reads one truth for each, and where there is no cycle
    /// nothing. Else it seeks sources anew, linear in the supports of such atoms; where some remain without
    /// one it is linear in the program.
    pub fn find_at_rest(&mut self, alloc: Global, trail: &Trail) -> Result<Option<Reason>, Memory>
        requires fits { Fits self.old trail.now.shape }
        requires supported { AreSupported self.old trail.now }
        ensures none { IfOk result (λ found. IfNone found (IsLoopFree self.old trail.now)) }
        ensures some { IfOk result (λ found. IfSome found (IsLoop self.old trail.now)) }
        ensures same { self.new ≡ self.old }
    {
        find_lost(
            alloc,
            self.atoms,
            &self.bodies,
            self.supports.items(),
            &self.groups,
            &mut self.sources,
            trail,
        )
    }
}
