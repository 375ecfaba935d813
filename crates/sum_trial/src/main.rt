//! What `bench/sums.sh` takes the time of.
//!
//! `chain N` narrows N sums of two items to their end, each of which keeps a variable 10 below the next one.
//! `wide N` narrows one sum of N items N times, and `idle N` calls one as often that narrows nothing. A line says how many entries the trail has then.
#![tactic(auto)]

mod chain;
mod starting;
mod wide;

use chain::narrow_chain;
use std::alloc::Global;
use std::env;
use symbols::Memory;
use wide::narrow_wide;

/// How many entries there are after the work that the words name, with no more than 100,000 sums or items.
fn entries_of(alloc: Global, words: &[String]) -> Result<usize, Memory> {
    match words {
        [kind, count] => {
            let count = count.parse().unwrap_or(1u32).clamp(1, 100_000);
            if kind.as_str() == "chain" {
                narrow_chain(alloc, count)
            } else if kind.as_str() == "idle" {
                narrow_wide(alloc, count, 1 << 40)
            } else {
                narrow_wide(alloc, count, 0)
            }
        }
        _ => Ok(0),
    }
}

fn main(rt: HostRuntime) -> anyhow::Result<()> {
    let mut words = Vec::new(rt.alloc());
    for word in env::args(&rt)? {
        words.push(word)?;
    }
    let entries = match words.as_slice() {
        [_, rest @ ..] => entries_of(rt.alloc(), rest).unwrap_or(0),
        [] => 0,
    };
    println!(rt; "{entries}")?;
    Ok(())
}
