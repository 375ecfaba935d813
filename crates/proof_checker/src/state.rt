// What is known between two lines, kept plainly.
use crate::table::Table;
use derivation_meaning::Claim;
use ground_model::Answer;
use symbols::Listed;

// An answer and its objective.
#[derive(Debug, Drop)]
pub(crate) struct Costed {
    pub(crate) cost: i128,
    pub(crate) answer: Answer,
}

// The live nogoods by id, the answers of the `m` lines, that of the last `o` line, and the claim.
//
// Ids have 128 bits, so that no count of lines exceeds them.
#[derive(Debug, Drop)]
pub(crate) struct PlainState {
    pub(crate) table: Table,
    pub(crate) answers: Listed<Answer>,
    pub(crate) best: Option<Costed>,
    pub(crate) claim: Option<Claim>,
}
