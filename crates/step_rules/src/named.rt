// What numbers and literals name.
ghost use Rattle.std.specs.Prelude.{◌≡◌, MatchOption, None, Some};
ghost use Rattle.std.specs.List.{list_all};
ghost use Rattle.linear_normal.specs.Steps as spec;
ghost use Rattle.linear_normal.specs.Truth as truth;

use ground_model::GroundProgram;
use linear_normal::Numbered;
use literals::Lit;

// Whether it is a number from 1 to the last one.
pub(crate) fn is_one_of(last: usize, number: u32) -> bool
    ensures { result ≡ spec.is_one_of last number }
{
    1 <= number && number as usize <= last
}

// Whether the literal names something of the program.
fn is_named(program: &GroundProgram, numbered: &Numbered, lit: Lit) -> bool
    ensures { result ≡ spec.is_named program.now numbered.now lit }
{
    match lit {
        Lit::Atom(n, _) => is_one_of(program.atoms.len(), n),
        Lit::Body(n, _) => is_one_of(numbered.bodies.len(), n),
        Lit::Constraint(n, _) => is_one_of(numbered.constraints.len(), n),
        Lit::AtMost(x, _) | Lit::AtLeast(x, _) => is_one_of(program.variables.len(), x),
    }
}

// Whether each literal does.
pub(crate) fn are_named(program: &GroundProgram, numbered: &Numbered, lits: &[Lit]) -> bool
    ensures { result ≡ list_all (spec.is_named program.now numbered.now) lits.now }
{
    lits.iter().all(|lit| is_named(program, numbered, *lit))
}

// The member of that number, counted from 1.
#[tactic(auto, using(crate::proofs::StepLemmas::numbered_zero, crate::proofs::StepLemmas::numbered_above))]
pub(crate) fn numbered_in<T>(items: &[T], number: u32) -> Option<&T>
    ensures { MatchOption result (truth.numbered_in items.now number ≡ None) (λ item. truth.numbered_in items.now number ≡ Some item.now) }
{
    if is_one_of(items.len(), number) {
        Some(&items[number as usize - 1])
    } else {
        None
    }
}
