// The constant of a total.
ghost use Rattle.std.specs.Prelude.{◌≡◌, ◌<◌, ◌≤◌, ◌+◌, ◌^◌, ◌+ℤ◌, ◌-ℤ◌, unsigned_abs, All, IsTrue};
ghost use Rattle.ground_model.specs.Sound as spec;
ghost use Rattle.linear_totals.specs.inner.Sums.{constants};

use program_meaning::CollectedPlace;

// Whether the sum of the constants minus another number is small.
pub(crate) fn is_small_constant(places: &[CollectedPlace], right: i64) -> bool
    requires places { All (λ place. IsTrue (spec.is_small place.linear.constant)) places.now }
    requires right { IsTrue (spec.is_small right) }
    ensures { result ≡ spec.is_small (constants places.now -ℤ right) }
{
    let mut sum = 0;
    for place in 0..places.len() {
        sum = plus(sum, places[place].linear.constant);
    }
    is_small_less(sum, right)
}

fn plus(sum: i128, more: i64) -> i128
    requires sum { unsigned_abs sum < 2 ^ 126 }
    requires more { IsTrue (spec.is_small more) }
    ensures sum { result ≡ sum +ℤ more }
    ensures size { unsigned_abs result ≤ unsigned_abs sum + 2 ^ 62 }
{
    sum + more as i128
}

fn is_small_less(sum: i128, right: i64) -> bool
    requires sum { unsigned_abs sum < 2 ^ 126 }
    requires right { IsTrue (spec.is_small right) }
    ensures { result ≡ spec.is_small (sum -ℤ right) }
{
    is_small(sum - right as i128)
}

pub(crate) fn is_small(n: i128) -> bool
    ensures { result ≡ spec.is_small n }
{
    -(1 << 62) < n && n < 1 << 62
}
