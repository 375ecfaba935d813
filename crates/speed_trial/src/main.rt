//! What the scripts under bench/ take the time of.
//!
//! `lanes N` counts N times over 65,536 places by the kernel, `plain N` by a plain loop; other words are
//! read as those of `clingcon`. A line says what came out.
#![tactic(auto)]

mod columns;

use columns::{all_counts, column};
use command_words::solver_settings;
use std::alloc::{AllocError, Global};
use std::env;

/// What came out of the words.
fn outcome(alloc: Global, words: &[String]) -> Result<usize, AllocError> {
    match words {
        [kind, rounds] if kind.as_str() == "lanes" || kind.as_str() == "plain" => {
            let lows = column(alloc, 0)?;
            let highs = column(alloc, 3)?;
            Ok(all_counts(
                &lows,
                &highs,
                kind.as_str() == "lanes",
                rounds.parse().unwrap_or(1),
            ))
        }
        _ => match solver_settings(alloc, words) {
            Ok(settings) => Ok(settings.files.len()),
            Err(_) => Ok(0),
        },
    }
}

fn main(rt: HostRuntime) -> anyhow::Result<()> {
    let mut words = Vec::new(rt.alloc());
    for word in env::args(&rt)? {
        words.push(word)?;
    }
    match words.as_slice() {
        [_, rest @ ..] => println!(rt; "{}", outcome(rt.alloc(), rest)?)?,
        [] => {}
    }
    Ok(())
}
