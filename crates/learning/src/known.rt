// What a search keeps of its derivation.
use ground_model::Answer;

/// An answer that a line gave, and the id of its nogood.
#[derive(Debug, Drop)]
pub struct Given {
    pub id: u64,
    pub answer: Answer,
}
