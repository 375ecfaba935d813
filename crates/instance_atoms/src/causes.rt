// The first of two causes.
ghost use Rattle.std.specs.Prelude.{◌≡◌};
ghost use Rattle.instance_atoms.specs.inner.Steps.{first_of};

use theory_ground::OutsideCause;

// The first of two causes.
pub(crate) fn first(one: OutsideCause, other: OutsideCause) -> OutsideCause
    ensures { result ≡ first_of one other }
{
    match one {
        OutsideCause::Overflow => OutsideCause::Overflow,
        OutsideCause::NotLinear => before_not_linear(other),
        OutsideCause::TooManyElements => before_many(other),
        OutsideCause::TooLarge => other,
    }
}

fn before_not_linear(other: OutsideCause) -> OutsideCause
    ensures { result ≡ first_of OutsideCause.NotLinear other }
{
    match other {
        OutsideCause::Overflow => OutsideCause::Overflow,
        OutsideCause::NotLinear => OutsideCause::NotLinear,
        OutsideCause::TooManyElements => OutsideCause::NotLinear,
        OutsideCause::TooLarge => OutsideCause::NotLinear,
    }
}

fn before_many(other: OutsideCause) -> OutsideCause
    ensures { result ≡ first_of OutsideCause.TooManyElements other }
{
    match other {
        OutsideCause::Overflow => OutsideCause::Overflow,
        OutsideCause::NotLinear => OutsideCause::NotLinear,
        OutsideCause::TooManyElements => OutsideCause::TooManyElements,
        OutsideCause::TooLarge => OutsideCause::TooManyElements,
    }
}
