// What an answer costs.
ghost use Rattle.std.specs.Prelude.{◌≡◌};
ghost use Rattle.ground_model.specs.Answers.{IsValuation};
ghost use Rattle.ground_model.specs.Objective.{objective_of};

use crate::answer::Answer;
use crate::program::GroundProgram;
use crate::value::sum_value;

/// The objective of an answer: the sum of the tuples to minimise minus that of the tuples to maximise.
///
/// It lies between -2^126 and 2^126.
pub fn objective(program: &GroundProgram, answer: &Answer) -> i128
    requires { IsValuation program.now answer.now.values }
    ensures { result ≡ objective_of program.now answer.now }
{
    let values = answer.values.items();
    let smaller = sum_value(program.smaller.items(), values);
    let larger = sum_value(program.larger.items(), values);
    smaller - larger
}
