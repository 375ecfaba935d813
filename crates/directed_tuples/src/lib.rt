//! The tuples of directives, instance by instance.
//!
//! `&minimize`, `&maximize` and `&show` give no rules: each relevant instance of one gives tuples, and those of
//! all instances together are the objective's, or say which integer variables are shown. This is what instances
//! hand on, as plain data that contracts read.
#![tactic(auto)]

mod directive;

pub use directive::Directive;
