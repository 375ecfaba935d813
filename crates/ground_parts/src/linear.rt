// Linear terms: their variables in order, their numbers small.
ghost use Rattle.std.specs.Prelude.{◌≡◌, ◌&&◌, nat_lt, nat_le};
ghost use Rattle.ground_model.specs.Sound.{is_small as small_test, are_sound_pairs as pairs_test, is_sound_linear as linear_test};

use crate::numbers::is_small;
use ground_model::Linear;

// Whether each variable is one of so many and stands once, in order, and all numbers are small.
pub(crate) fn is_sound_linear(variables: usize, linear: &Linear) -> bool
    ensures { result ≡ linear_test variables linear.now }
{
    are_sound_pairs(variables, linear.pairs.items()) && is_small(i128::from(linear.constant))
}

// Whether variables ascend, up to the last, and coefficients are small.
fn are_sound_pairs(variables: usize, pairs: &[(u32, i64)]) -> bool
    ensures { result ≡ pairs_test variables 0 pairs.now }
{
    let mut before = 0;
    for (variable, coefficient) in pairs {
        if !is_sound_pair(variables, before, *variable, *coefficient) {
            return false;
        }
        before = *variable;
    }
    true
}

// Whether a variable lies above the one before, up to the last, and its coefficient is small.
fn is_sound_pair(variables: usize, before: u32, variable: u32, coefficient: i64) -> bool
    ensures { result ≡ (nat_lt before variable && nat_le variable variables && small_test coefficient) }
{
    before < variable && variable as usize <= variables && is_small(i128::from(coefficient))
}
