// What holds of lines, states and trails. Each function's contract is a law, and its body is empty.
ghost use Rattle.learning.specs.Laws.{
  CostLaw,
  DecisionLaw,
  FrontLaw,
  GivenLaw,
  GrowthLaw,
  HoldLaw,
  LinesLaw,
  ReachLaw,
  StartLaw,
  StartsLaw,
  UndoLaw,
};

/// The lines that tell what was learned are valid one after another, and leave the learned nogood beside the held ones.
pub fn learned_lines_are_valid()
    ensures { LinesLaw }
{}

/// So is a front of the lines that tell reasons.
pub fn fronts_are_valid()
    ensures { FrontLaw }
{}

/// The first state is that of the input nogoods; valid lines lead on from states that valid lines reach.
pub fn states_are_reached()
    ensures start { StartLaw }
    ensures on { ReachLaw }
{}

/// After an answer its nogood is held under the next id.
pub fn answers_are_held()
    ensures { GivenLaw }
{}

/// A trail stays explained as held nogoods and valid reasons force entries, as a literal is decided, as it is undone,
/// as more nogoods are held, and under a smaller cost.
pub fn explained_trails_stay()
    ensures growth { GrowthLaw }
    ensures decision { DecisionLaw }
    ensures undo { UndoLaw }
    ensures held { HoldLaw }
    ensures cost { CostLaw }
{}

/// A held nogood or a valid reason whose literals are all true is a conflict from which something can be learned and told.
pub fn conflicts_can_be_told()
    ensures { StartsLaw }
{}
