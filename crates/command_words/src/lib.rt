//! The settings of `clingcon` and of `clingcheck`, read from their words.
//!
//! A walk tests the form of each word, `clap` gives the values over one simple command, and numbers,
//! ranges and defaults are read here. `Ok` comes with exactly the settings that the words have,
//! `Usage` exactly where they have none. Time is linear in the words.
//! It stands on `clap`, and on `symbols` for `Ends`, `Listed` and `Memory`.
#![tactic(auto)]

mod command;
mod forms;
mod laws;
mod numbers;
mod program;
mod reading;
mod settings;
mod stop;
mod usage;

pub use laws::{checker_settings_are_within, solver_settings_are_within};
pub use reading::{checker_settings, solver_settings};
pub use settings::{CheckerSettings, SolverSettings};
pub use stop::WordsStop;
pub use usage::{CHECKER_USAGE, SOLVER_USAGE};
