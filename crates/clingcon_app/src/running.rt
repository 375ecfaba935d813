// The top call and its statuses.
ghost use Rattle.std.specs.Prelude.{◌≡◌, ◌⊎◌, ◌↔◌, ◌++◌, None};
ghost use Rattle.std.specs.Io.KnownBytes.{Appends};
ghost use Rattle.outside_io.specs.Faults.{RisesWhere};
ghost use Rattle.outside_io.specs.Outputs.{IsUntouched};
ghost use Rattle.outside_io.specs.Told.{AppendsSome, FlushesAll};
ghost use Rattle.clingcon_app.specs.Outcome.{IsCutOff, IsEnded, IsEnding, IsRefusing, IsStatus, IsUnprinted};
ghost use Rattle.clingcon_app.specs.Printed.{satisfiable};
ghost use Rattle.clingcon_app.specs.Stops.{PrintsFront};
ghost use Rattle.clingcon_app.specs.Texts as texts;

use crate::answering::{Verdict, verdict_of};
use crate::refusing::too_large_line;
use crate::texts::{TextsStop, read_texts};
use crate::words::{are_files, name_at};
use outside_io::{Files, OutFault, Sink, write_all, write_last};
use std::alloc::Global;
use symbols::Memory;

// The line of what is not built.
const NOT_BUILT: &[u8] = b"error: not built\n";

/// How a run ended.
#[derive(Clone, Copy, Debug, PartialEq, Eq)]
pub struct Report {
    /// 10: the answer was printed. 33: memory could not be had. 65: a text is not in the grammar, a check of it
    /// fails, or a constant may not be. 66: an input failed. 67: an output failed. 70: a text is too large, or all
    /// are. 71: the words or the texts have a part that is not built yet.
    pub status: u8,
    /// How many answers were printed whole.
    pub answers: u64,
    /// How many conflicts the search met.
    pub conflicts: u64,
    /// The objective of the last answer, where the program has one.
    pub best: Option<i128>,
}

/// Reads the texts of the inputs that the words name, `-` where there is no word, and prints the one constraint
/// stable model of their program, or the first refusal.
///
/// There are at most 65,536 inputs; a text has at most 16 MiB, and all have at most 64 MiB. A program is solved if
/// it is of the first form: at most 65,536 facts and definite rules with no variable. `proof` takes a derivation in
/// time; it is not used yet.
pub fn run<F: Files, O: Sink, D: Sink>(
    alloc: Global,
    words: &[String],
    files: &mut F,
    out: &mut O,
    proof: &mut D,
) -> Report
    ensures statuses { IsStatus result.status }

    // Each status has its cause; want of memory, 33, is the one free answer.
    ensures ended { IsEnding result.status → IsEnded result.status (F.tells files.old) (F.tells files.new).taken words.now (O.tells out.old) (O.tells out.new) }
    ensures read { RisesWhere (result.status ≡ 66) (F.tells files.old).faults (F.tells files.new).faults }
    ensures wrote { RisesWhere (result.status ≡ 67) (O.tells out.old).faults (O.tells out.new).faults }

    // What stands on the output: all of it flushed, or nothing, or a front of what was to be printed.
    ensures flushed { IsEnding result.status → FlushesAll (O.tells out.new).written (O.tells out.new).flushed }
    ensures nothing { result.status ≡ 66 → IsUntouched (O.tells out.old) (O.tells out.new) }
    ensures front { (result.status ≡ 33) ⊎ (result.status ≡ 67) → IsUnprinted (O.tells out.old) (O.tells out.new) result.answers
        ⊎ IsCutOff (F.tells files.old) (F.tells files.new).taken words.now (O.tells out.old) (O.tells out.new) result.answers }
    ensures opened { (O.tells out.new).opened ≡ (O.tells out.old).opened }
    ensures unused { proof.new ≡ proof.old }

    // What is reported: the blocks that were written whole, at 33 and 67 too.
    ensures answers { result.status ≡ 10 → result.answers ≡ 1 }
    ensures no_answer { (result.status ≡ 65) ⊎ (result.status ≡ 66) ⊎ (result.status ≡ 70) ⊎ (result.status ≡ 71) → result.answers ≡ 0 }
    ensures conflicts { result.conflicts ≡ 0 }
    ensures best { result.best ≡ None }
{
    let _ = proof;
    if !are_files(words) {
        return refuse(out, 71, NOT_BUILT);
    }
    let texts = match read_texts(alloc, words, files) {
        Ok(texts) => texts,
        Err(TextsStop::Failed) => return ended(66, 0),
        Err(TextsStop::Memory) => return ended(33, 0),
        Err(TextsStop::TooLarge(at)) => return refuse_size(alloc, out, name_at(words, at)),
    };
    match verdict_of(alloc, words, texts.items()) {
        Ok(Verdict::Answer(block)) => print_answer(out, block.items()),
        Ok(Verdict::Refused(line)) => refuse(out, 65, line.items()),
        Ok(Verdict::NotBuilt) => refuse(out, 71, NOT_BUILT),
        Err(Memory) => ended(33, 0),
    }
}

fn ended(status: u8, answers: u64) -> Report
    ensures status { result.status ≡ status }
    ensures answers { result.answers ≡ answers }
    ensures conflicts { result.conflicts ≡ 0 }
    ensures best { result.best ≡ None }
{
    Report {
        status,
        answers,
        conflicts: 0,
        best: None,
    }
}

// How a run ends that an output stopped.
fn stopped(fault: OutFault, answers: u64) -> Report
    ensures failed { fault ≡ OutFault.Failed ↔ result.status ≡ 67 }
    ensures status { (result.status ≡ 67) ⊎ (result.status ≡ 33) }
    ensures answers { result.answers ≡ answers }
    ensures conflicts { result.conflicts ≡ 0 }
    ensures best { result.best ≡ None }
{
    match fault {
        OutFault::Failed => ended(67, answers),
        OutFault::Memory => ended(33, answers),
    }
}

// Prints the line of a refusal, and ends with its status.
fn refuse<O: Sink>(out: &mut O, status: u8, line: &[u8]) -> Report
    requires { IsRefusing status }
    ensures statuses { (result.status ≡ status) ⊎ (result.status ≡ 33) ⊎ (result.status ≡ 67) }
    ensures whole { result.status ≡ status → Appends (O.tells out.old).written (O.tells out.new).written line.now }
    ensures flushed { result.status ≡ status → FlushesAll (O.tells out.new).written (O.tells out.new).flushed }
    ensures front { (result.status ≡ 33) ⊎ (result.status ≡ 67) → AppendsSome (O.tells out.old).written (O.tells out.new).written line.now }
    ensures names { (O.tells out.new).opened ≡ (O.tells out.old).opened }
    ensures answers { result.answers ≡ 0 }
    ensures conflicts { result.conflicts ≡ 0 }
    ensures best { result.best ≡ None }
    ensures cause { RisesWhere (result.status ≡ 67) (O.tells out.old).faults (O.tells out.new).faults }
{
    match write_last(out, line) {
        Ok(()) => ended(status, 0),
        Err(fault) => stopped(fault, 0),
    }
}

// Prints the refusal of a text that is too large.
fn refuse_size<O: Sink>(alloc: Global, out: &mut O, name: &str) -> Report
    ensures statuses { (result.status ≡ 70) ⊎ (result.status ≡ 33) ⊎ (result.status ≡ 67) }
    ensures whole { result.status ≡ 70 → Appends (O.tells out.old).written (O.tells out.new).written (texts.too_large_line name.now) }
    ensures flushed { result.status ≡ 70 → FlushesAll (O.tells out.new).written (O.tells out.new).flushed }
    ensures front { (result.status ≡ 33) ⊎ (result.status ≡ 67) → ((O.tells out.new).written ≡ (O.tells out.old).written) ⊎ AppendsSome (O.tells out.old).written (O.tells out.new).written (texts.too_large_line name.now) }
    ensures names { (O.tells out.new).opened ≡ (O.tells out.old).opened }
    ensures answers { result.answers ≡ 0 }
    ensures conflicts { result.conflicts ≡ 0 }
    ensures best { result.best ≡ None }
    ensures cause { RisesWhere (result.status ≡ 67) (O.tells out.old).faults (O.tells out.new).faults }
{
    match too_large_line(alloc, name) {
        Ok(line) => refuse(out, 70, line.items()),
        Err(Memory) => ended(33, 0),
    }
}

// Prints the block of the one answer, and the line of the ending.
fn print_answer<O: Sink>(out: &mut O, block: &[u8]) -> Report
    ensures statuses { (result.status ≡ 10) ⊎ (result.status ≡ 33) ⊎ (result.status ≡ 67) }
    ensures whole { result.status ≡ 10 → Appends (O.tells out.old).written (O.tells out.new).written (block.now ++ satisfiable) }
    ensures flushed { result.status ≡ 10 → FlushesAll (O.tells out.new).written (O.tells out.new).flushed }
    ensures front { (result.status ≡ 33) ⊎ (result.status ≡ 67) → PrintsFront (O.tells out.old).written (O.tells out.new).written (block.now ++ satisfiable) result.answers }
    ensures names { (O.tells out.new).opened ≡ (O.tells out.old).opened }
    ensures answers { result.status ≡ 10 → result.answers ≡ 1 }
    ensures conflicts { result.conflicts ≡ 0 }
    ensures best { result.best ≡ None }
    ensures cause { RisesWhere (result.status ≡ 67) (O.tells out.old).faults (O.tells out.new).faults }
{
    match write_all(out, block) {
        Ok(()) => {}
        Err(fault) => return stopped(fault, 0),
    }
    match write_last(out, b"SATISFIABLE\n") {
        Ok(()) => ended(10, 1),
        Err(fault) => stopped(fault, 1),
    }
}
