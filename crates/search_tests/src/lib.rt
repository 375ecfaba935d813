//! Tests of what a search is made of: learned nogoods, and sums.
//!
//! A crate of tests alone, so that no crate below is proved again for them. Literals, nogoods and what is done to a trail are
//! texts; a literal is spelled as derivations spell it.
#![tactic(auto)]

#[cfg(test)]
mod answers;
#[cfg(test)]
mod conflicts;
#[cfg(test)]
mod sums;
#[cfg(test)]
mod words;
