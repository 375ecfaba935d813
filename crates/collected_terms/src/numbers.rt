// Numbers that are small: strictly between -2^62 and 2^62.
ghost use Rattle.std.specs.Prelude.{◌≡◌, ◌*ℤ◌, ◌+ℤ◌, true, false, MatchOption, IsTrue, int_div, ◌-ℤ◌};
ghost use Rattle.ground_model.specs.Sound as spec;
ghost use Rattle.syntax_tree.specs.Arithmetic.{is_zero};

// Whether a number is small.
pub(crate) fn is_small(n: i128) -> bool
    ensures { result ≡ spec.is_small n }
{
    -(1 << 62) < n && n < 1 << 62
}

// A number if it is small.
pub(crate) fn small(n: i128) -> Option<i64>
    ensures { MatchOption result (spec.is_small n ≡ false) (λ m. (spec.is_small n ≡ true) × (m ≡ n)) }
{
    if is_small(n) { Some(n as i64) } else { None }
}

// The product of two small numbers, if it is small.
pub(crate) fn product(a: i64, b: i64) -> Option<i64>
    requires a { IsTrue (spec.is_small a) }
    requires b { IsTrue (spec.is_small b) }
    ensures { MatchOption result (spec.is_small (a *ℤ b) ≡ false) (λ m. (spec.is_small (a *ℤ b) ≡ true) × (m ≡ a *ℤ b)) }
{
    small(a as i128 * b as i128)
}

// The sum of two small numbers, if it is small.
pub(crate) fn sum(a: i64, b: i64) -> Option<i64>
    requires a { IsTrue (spec.is_small a) }
    requires b { IsTrue (spec.is_small b) }
    ensures { MatchOption result (spec.is_small (a +ℤ b) ≡ false) (λ m. (spec.is_small (a +ℤ b) ≡ true) × (m ≡ a +ℤ b)) }
{
    small(a as i128 + b as i128)
}

// The quotient of two small numbers, cut off towards zero.
pub(crate) fn quotient(a: i64, b: i64) -> i64
    requires a { IsTrue (spec.is_small a) }
    requires b { IsTrue (spec.is_small b) }
    requires zero { is_zero b ≡ false }
    ensures { result ≡ int_div a b }
{
    a / b
}

// The remainder that fits this quotient.
pub(crate) fn remainder(a: i64, b: i64) -> i64
    requires a { IsTrue (spec.is_small a) }
    requires b { IsTrue (spec.is_small b) }
    requires zero { is_zero b ≡ false }
    ensures { result ≡ a -ℤ (b *ℤ int_div a b) }
{
    a % b
}
