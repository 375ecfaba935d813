// What follows from the meaning of a sum's propagator. The function's contract is the law, and its body is empty.
ghost use Rattle.sum_laws.specs.SumWork.{SumWorkLaw};

/// The propagator of a program's sum fits its shape, calls valid exactly what steps of the sum show, and settles it.
pub fn sums_do_their_work()
    ensures { SumWorkLaw }
{}
