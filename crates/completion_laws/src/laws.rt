// What follows from the definition of the input nogoods. The function's contract is the law, and its body is empty.
ghost use Rattle.completion_laws.specs.Inputs.{InputsLaw};

/// Every literal of an input nogood is well formed and of the program and its numbering.
///
/// Only that a domain, a distinct or a disjoint constraint is false stands in an input nogood, never that it is
/// true: its values alone decide that, and a trail may call it false though it holds.
pub fn inputs_are_named()
    ensures { InputsLaw }
{}
