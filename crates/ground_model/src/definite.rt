// The one answer of a definite program.
ghost use Rattle.std.specs.Prelude.{IsTrue, IfOk};
ghost use Rattle.ground_model.specs.Answers.{AreAtomsOf, IsOnlyAnswer};
ghost use Rattle.ground_model.specs.Definite.{is_definite};

use crate::answer::Answer;
use crate::flags::flagged;
use crate::program::GroundProgram;
use crate::reduct::reduct;
use definite_rules::least_model;
use std::alloc::Global;
use symbols::{Listed, Memory};

/// The one constraint stable model of a program of facts and definite rules: its derivable atoms.
///
/// It takes time linear in the program.
pub fn definite_answer(alloc: Global, program: &GroundProgram) -> Result<Answer, Memory>
    requires { IsTrue (is_definite program.now) }
    ensures only { IfOk result (λ answer. IsOnlyAnswer program.now answer) }
    ensures known { IfOk result (λ answer. AreAtomsOf program.now answer.atoms) }
{
    let none = vec![in alloc; false; program.atoms.len() + 1]?;
    let rules = reduct(alloc, program.rules.items(), &none, &[])?;
    let least = least_model(alloc, program.atoms.len(), &rules)?;
    let atoms = flagged(alloc, least.items())?;
    let values = Listed::new(alloc);
    Ok(Answer { atoms, values })
}
