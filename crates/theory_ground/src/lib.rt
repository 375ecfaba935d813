//! Theory atoms under an instance of their rule, collected.
//!
//! The instances of each element are searched by the plans of a theory atom, each is judged, and what they come to is
//! put together: the theory atom in collected form, or the first cause by which it has none. Stands on `theory_plans`
//! for the plans, on `instance_search` for rows, and on `collected_atoms` for the rest.
#![tactic(auto)]

mod collecting;
mod elements;
mod rows;

pub use collected_atoms::{CollectedAtom, CollectedGuard, OutsideCause};
pub use collecting::{CollectStop, collect};
