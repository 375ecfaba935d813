//! Tests of derivations: their lines, and what becomes of a worked derivation where a line is changed.
//!
//! A crate of tests alone, so that `derivation` and `proof_checker` are proved once. Programs are texts
//! of `ground_examples`.
#![tactic(auto)]

#[cfg(test)]
mod lines;
#[cfg(test)]
mod worked;
