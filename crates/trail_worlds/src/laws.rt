// What holds of a trail at rest. Each function's contract is the law, and its body is empty.
ghost use Rattle.trail_worlds.specs.Laws.{AnswerLaw, NamesLaw, SayLaw};
ghost use Rattle.trail_worlds.specs.Calm.{CalmLaw};
ghost use Rattle.trail_worlds.specs.Sums.{SumLaw, CostLaw};

/// Every literal of an input nogood is well formed and of the shape of the program's trails.
pub fn input_nogoods_are_of_the_shape()
    ensures { NamesLaw }
{}

/// The answer of a trail on which all is decided and nothing is left to say is a constraint stable model.
pub fn trails_at_rest_are_answers()
    ensures { AnswerLaw }
{}

/// So it is on a trail on which held nogoods force nothing and each propagator rests.
pub fn calm_trails_are_answers()
    ensures { CalmLaw }
{}

/// A trail on which all is decided says of each atom and each variable what its answer says.
pub fn total_trails_say_their_answers()
    ensures { SayLaw }
{}

/// On a trail on which all is decided the least and the greatest sum of items are one.
pub fn total_trails_have_one_sum()
    ensures { SumLaw }
{}

/// On such a trail of a program the objective's greatest sum is the cost of the trail's answer.
pub fn total_trails_have_one_cost()
    ensures { CostLaw }
{}
