// What holds of instances that are outside. Each function's contract is the law, and its body is empty.
ghost use Rattle.outside_laws.specs.Laws.{OverLaw, FirstLaw, LargeLaw, InsideLaw, FirstOutsideLaw, NoneOutsideLaw};

/// Something over outside an instance's theory atoms is its first cause (`over`). Where there is none, it is the first of
/// the first causes of its theory atoms (`first`); where they have none, a value over the ends that is too large
/// (`large`); and without this it has no cause (`inside`).
pub fn first_causes_are_found()
    ensures over { OverLaw }
    ensures first { FirstLaw }
    ensures large { LargeLaw }
    ensures inside { InsideLaw }
{}

/// Of all relevant instances in order, the first one that has a cause is the first that is outside (`first`); where none
/// has one, no instance is outside (`inside`).
pub fn first_instances_are_outside()
    ensures first { FirstOutsideLaw }
    ensures inside { NoneOutsideLaw }
{}
