//! What the words set.
ghost use Rattle.std.specs.Prelude.{◌≡◌};
ghost use Rattle.command_words.specs.Answers.{answers_wanted};

use symbols::{Ends, Listed};

/// The settings of `clingcon`.
#[derive(Debug, Drop)]
pub struct SolverSettings<'a> {
    /// How many answers `-n` asks for, 0 for all.
    pub answers: Option<u64>,
    /// After how many conflicts the search gives up.
    pub conflicts: u64,
    pub ends: Ends,
    /// The greatest number of ground instances.
    pub ground_limit: u64,
    /// The file into which the derivation is written.
    pub proof: Option<&'a str>,
    /// The texts, in their order; none stands for `-` alone.
    pub files: Listed<&'a str>,
}

impl SolverSettings<'_> {
    /// How many answers are wanted, 0 for all: by default one, and with an objective all.
    pub fn answers_wanted(&self, has_objective: bool) -> u64
        ensures { result ≡ answers_wanted self.now.answers has_objective }
    {
        match self.answers {
            Some(answers) => answers,
            None if has_objective => 0,
            None => 1,
        }
    }
}

/// The settings of `clingcheck`.
#[derive(Debug, Drop)]
pub struct CheckerSettings<'a> {
    /// The least value that the words name, which must be the derivation's.
    pub min: Option<i32>,
    /// The greatest value that the words name, which must be the derivation's.
    pub max: Option<i32>,
    /// The derivation.
    pub proof: &'a str,
    /// The texts, in their order; none stands for `-` alone.
    pub files: Listed<&'a str>,
}
