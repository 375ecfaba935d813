//! What texts load to: the line of the first cause for which they are refused, or their canonical ground program.
//!
//! Texts are read one by one, their constants replaced, their rules judged, and their program grounded. Each cause
//! of a refusal stands only where none before it does, so texts load to one thing at most. All functions are laws:
//! their contracts say what follows from the definitions, and they do nothing. Stands on `inputs` for texts,
//! `safety_meaning` for programs and `program_meaning` for what they ground to.
#![tactic(auto)]

mod laws;

pub use laws::{loading_keeps_models, one_ground, one_load};
