//! The lines that say how the programs are called.

/// How `clingcon` is called, without the line feed at its end.
pub const SOLVER_USAGE: &str =
    "usage: clingcon [-n N] [--conflicts N] [--min-int K] [--max-int K] [--ground-limit N] [--proof FILE] [FILE ..]";

/// How `clingcheck` is called, without the line feed at its end.
pub const CHECKER_USAGE: &str = "usage: clingcheck [--min-int K] [--max-int K] PROOF [FILE ..]";
