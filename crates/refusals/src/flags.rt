// Counting flags.
ghost use Rattle.std.specs.Prelude.{◌≡◌, ◌≤◌, length, map, IfOk};
ghost use Rattle.rewriting.specs.Order.{variable_in};
ghost use Rattle.load_meaning.specs.Lines as spec;

use rewriting::Sight;
use std::alloc::Global;
use symbols::{Listed, Memory};

/// How many flags stand before the true one with this number, from 0: all where there is none.
pub(crate) fn before_true(number: usize, flags: &[bool]) -> usize
    ensures before { result ≡ spec.before_true number flags.now }
    ensures within { result ≤ length flags.now }
{
    let mut left = number;
    for at in 0..flags.len() {
        if flags[at] {
            if left == 0 {
                return at;
            }
            left -= 1;
        }
    }
    flags.len()
}

fn is_atom(sight: &Sight) -> bool
    ensures { result ≡ spec.is_atom sight.now }
{
    match sight {
        Sight::Variable(_) => false,
        Sight::Anonymous(_) => false,
        Sight::Interval(_) => false,
        Sight::Atom => true,
    }
}

/// For each thing that is seen whether it is an atom.
pub(crate) fn atom_flags(alloc: Global, sights: &[Sight]) -> Result<Listed<bool>, Memory>
    ensures { IfOk result (λ flags. flags ≡ map spec.is_atom sights.now) }
{
    let mut flags = Listed::new(alloc);
    for sight in sights {
        flags.push(is_atom(sight))?;
    }
    Ok(flags)
}

fn is_variable(number: u32, sight: &Sight) -> bool
    ensures { result ≡ spec.is_this number (variable_in sight.now) }
{
    match sight {
        Sight::Variable(n) => *n == number,
        Sight::Anonymous(n) => *n == number,
        Sight::Interval(n) => *n == number,
        Sight::Atom => false,
    }
}

/// For each thing that is seen whether it is the variable.
pub(crate) fn variable_flags(
    alloc: Global,
    number: u32,
    sights: &[Sight],
) -> Result<Listed<bool>, Memory>
    ensures { IfOk result (λ flags. flags ≡ map (λ sight. spec.is_this number (variable_in sight)) sights.now) }
{
    let mut flags = Listed::new(alloc);
    for sight in sights {
        flags.push(is_variable(number, sight))?;
    }
    Ok(flags)
}
