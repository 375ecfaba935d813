//! Tests of ground programs: answers, blocks, least models and indexes, against what was worked out by hand.
//!
//! A crate of tests alone, so that no crate below is proved again for them. Programs are texts of
//! `ground_examples`.
#![tactic(auto)]

#[cfg(test)]
mod answers;
#[cfg(test)]
mod least;
#[cfg(test)]
mod matching;
