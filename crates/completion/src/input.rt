// The input nogoods of a ground program.
ghost use Rattle.std.specs.Prelude.{◌≡◌, ◌↔◌, ◌<◌, ◌^◌, length, IsTrue, IfOk};
ghost use Rattle.linear_normal.specs.Numbering.{numbering};
ghost use Rattle.completion.specs.Inputs.{input_nogoods};

use crate::atom::add_atoms;
use crate::constraint::add_constraints;
use crate::rule::add_rules;
use ground_model::GroundProgram;
use linear_normal::Numbered;
use literals::Nogood;
use std::alloc::Global;
use symbols::{Listed, Memory};

// Whether a `u32` counts the bodies and the constraints.
fn are_countable(numbered: &Numbered) -> bool
    ensures { IsTrue result ↔ ((length numbered.now.bodies < 2 ^ 32) × (length numbered.now.constraints < 2 ^ 32)) }
{
    numbered.bodies.len() < 1 << 32 && numbered.constraints.len() < 1 << 32
}

/// The input nogoods: rule by rule its bodies and duties, then the constraints, then the atoms.
///
/// They are the program's completion (Clark). `numbered` is the numbering of the program. Linear in both. Every
/// number is a `u32`: more bodies or constraints than it counts are answered as a want of memory.
pub fn complete(
    alloc: Global,
    ground: &GroundProgram,
    numbered: &Numbered,
) -> Result<Listed<Nogood>, Memory>
    requires numbered { numbered.now ≡ numbering ground.now }
    ensures { IfOk result (λ nogoods. nogoods ≡ input_nogoods ground.now) }
{
    if !are_countable(numbered) {
        return Err(Memory);
    }
    let mut nogoods = Listed::new(alloc);
    add_rules(alloc, ground, numbered, &mut nogoods)?;
    add_constraints(alloc, numbered.constraints.items(), &mut nogoods)?;
    add_atoms(
        alloc,
        ground.atoms.len(),
        numbered.supports.items(),
        &mut nogoods,
    )?;
    Ok(nogoods)
}
