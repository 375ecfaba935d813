//! What `bench/search.sh` takes the time of.
//!
//! It counts the constraint stable models of a ground program on standard input, in the notation of
//! `ground_examples`. A line says how many there are, and from how many conflicts was learned; nothing is printed
//! where the text makes no program that the search takes, or there are more than 2^20.
#![tactic(auto)]

mod counting;

use counting::{Answers, count_of};
use ground_examples::program_of;
use std::alloc::Global;
use std::io::Read;
use symbols::Memory;

// What the program of a text comes to.
fn counted(alloc: Global, text: &str) -> Result<Option<Answers>, Memory> {
    match program_of(alloc, text)? {
        None => Ok(None),
        Some(ground) => count_of(alloc, ground),
    }
}

fn main(rt: HostRuntime) -> anyhow::Result<()> {
    let mut text = String::new(rt.alloc());
    rt.stdin().read_to_string(&mut text)?;
    if let Ok(Some(count)) = counted(rt.alloc(), &text) {
        println!(rt; "{} answers, {} conflicts", count.answers, count.conflicts)?;
    }
    Ok(())
}
