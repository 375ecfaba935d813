//! Tests of the lines of refused texts, against what was worked out by hand.
//!
//! A crate of tests alone, so that no crate below is proved again for them.
#![tactic(auto)]

#[cfg(test)]
mod failures;
