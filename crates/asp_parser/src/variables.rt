// How many variables a rule may have, and which of its places are bad in a constant.
ghost use Rattle.std.specs.Prelude.{◌≡◌, map};
ghost use Rattle.grammar.specs.Check.{first_of, bad_terms};
ghost use Rattle.asp_parser.specs.StatementState.{crowded};

use grammar::{Check, Failing, sooner};
use theory_grammar::Place;

// How many variables a rule may have.
const MOST: usize = 64;

// The failed check so far, or one of these places as a bad term, where that comes before it.
pub(crate) fn sooner_places(so_far: Option<Failing>, places: &[Place]) -> Option<Failing>
    ensures { result ≡ first_of so_far (bad_terms (map (λ place. place.at) places.now)) }
{
    let mut first = so_far;
    for place in places {
        first = sooner(
            first,
            Failing {
                check: Check::BadTerm,
                at: place.at,
            },
        );
    }
    first
}

// The failed check so far, or the place where there is one variable too many, where that comes before it.
pub(crate) fn sooner_crowded(so_far: Option<Failing>, places: &[Place]) -> Option<Failing>
    ensures { result ≡ first_of so_far (crowded places.now) }
{
    let mut left = MOST;
    for place in places {
        if place.adds {
            if left == 0 {
                return sooner(
                    so_far,
                    Failing {
                        check: Check::TooManyVariables,
                        at: place.at,
                    },
                );
            }
            left -= 1;
        }
    }
    so_far
}
