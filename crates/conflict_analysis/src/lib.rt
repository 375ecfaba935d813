//! Conflict analysis: from nogoods whose literals are all true to one that says why.
//!
//! Over a trail on which each entry is a decision or has a reason, `analyse` resolves a nogood whose
//! literals are all true with the reasons of its literals, latest first, until one literal alone is of the
//! highest level: the first unique implication point. Its answer has the chain of resolutions, which
//! `resolve` replays to the new nogood. A literal that the ends of a variable imply is resolved away too.
//! Stands on `symbols`, `literals`, `trail` and `nogood_store`.
#![tactic(auto)]

mod analysis;
mod drain;
mod learned;
mod level;
mod marks;
mod put;
mod reasons;
mod resolve;
mod walk;

pub use analysis::analyse;
pub use learned::{Learned, Link, Start};
pub use marks::Marks;
