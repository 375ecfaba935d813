// Truth on a trail.
ghost use Rattle.std.specs.Prelude.{◌≡◌};
ghost use Rattle.trail.specs.Assignment.{Names, is_true_on};

use literals::Lit;
use trail::Trail;

// Whether the literal is true.
#[inline]
pub(crate) fn is_true(trail: &Trail, lit: Lit) -> bool
    requires { Names trail.now.shape lit }
    ensures { result ≡ is_true_on trail.now lit }
{
    match trail.truth(lit) {
        Some(true) => true,
        _ => false,
    }
}
