// Checks of what the grammar derives.
ghost use Rattle.std.specs.Prelude.{◌≡◌};
ghost use Rattle.grammar.specs.Check as spec;

/// A check of a statement that the grammar derives. Where several fail at one place, they come in this order.
#[derive(Clone, Copy, Debug, PartialEq, Eq)]
pub enum Check {
    UnknownTheory,
    WrongPlace,
    BadGuard,
    BadTerm,
    TooManyVariables,
}

/// A check that fails, and the number of the word where it does, from 0.
#[derive(Clone, Copy, Debug, PartialEq, Eq)]
pub struct Failing {
    pub check: Check,
    pub at: usize,
}

fn rank(check: Check) -> u8
    ensures { result ≡ spec.rank check }
{
    match check {
        Check::UnknownTheory => 0,
        Check::WrongPlace => 1,
        Check::BadGuard => 2,
        Check::BadTerm => 3,
        Check::TooManyVariables => 4,
    }
}

fn comes_before(one: Failing, other: Failing) -> bool
    ensures { result ≡ spec.comes_before one other }
{
    one.at < other.at || one.at == other.at && rank(one.check) < rank(other.check)
}

/// The failed check so far, or another where that comes before it.
pub fn sooner(so_far: Option<Failing>, failing: Failing) -> Option<Failing>
    ensures { result ≡ spec.sooner so_far failing }
{
    match so_far {
        Some(first) => {
            if comes_before(failing, first) {
                Some(failing)
            } else {
                Some(first)
            }
        }
        None => Some(failing),
    }
}
