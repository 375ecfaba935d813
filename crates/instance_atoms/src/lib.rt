//! All theory atoms of an instance, collected.
//!
//! Each theory atom of a rule is collected under an instance of the rule. Where one has no collected form, the first
//! cause of all is told. Stands on `theory_ground` for one theory atom, and on `growing_atoms` for those before it.
#![tactic(auto)]

mod causes;
mod collecting;

pub use collecting::collect_atoms;
