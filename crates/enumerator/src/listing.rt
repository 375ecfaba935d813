// Listing all answers.
ghost use Rattle.std.specs.Prelude.{◌≡◌, ◌⊎◌, ◌+◌, ◌≤◌, ◌<◌, ◌^◌, ℕ, false, IsErrOf, OnOk, OnErr};
ghost use Rattle.std.specs.Io.KnownBytes.{Appends};
ghost use Rattle.ground_model.specs.Answers.{AreAtomsOf, IsValuation};
ghost use Rattle.ground_model.specs.Printed.{block};
ghost use Rattle.outside_io.specs.Faults.{RisesWhere};
ghost use Rattle.outside_io.specs.Outputs.{Output};
ghost use Rattle.outside_io.specs.Told.{AppendsFront};
ghost use Rattle.derivation_meaning.specs.State.{start};
ghost use Rattle.search_core.specs.Searching.{begun};
ghost use Rattle.enumerator.specs.Endings.{Task, asked, counted, line_for, IsOwn, Ends, Breaks};
ghost use Rattle.enumerator.specs.inner.Listing.{GoesOn, Gives, Turns, IsAsked, IsBroken, IsDue, ending_of};

use crate::summary::{Ending, Summary};
use ground_model::{Answer, GroundProgram, write_answer};
use outside_io::{OutFault, Sink, write_all};
use propagator_core::Propagator;
use search_core::{Event, Search, Stop};
use std::alloc::Global;
use symbols::Listed;

/// What came of one call of the search.
#[derive(Clone, Copy, Debug)]
pub(crate) enum Turn {
    /// The block of one more answer is printed.
    Printed,
    /// The search ended; its line is not printed yet.
    Ended(Ending),
    /// The output failed, or memory could not be had.
    Broke(Ending),
}

// The line of an ending.
fn line_of(ending: Ending) -> &'static [u8]
    ensures { result.now ≡ line_for ending }
{
    match ending {
        Ending::NoAnswer => b"UNSATISFIABLE\n",
        Ending::Limit => b"UNKNOWN\n",
        _ => b"SATISFIABLE\n",
    }
}

// The ending of a listing that the output stopped.
fn broken_by(fault: OutFault) -> Ending
    ensures broken { IsBroken result }
    ensures failed { fault ≡ OutFault.Failed → result ≡ Ending.WriteFault }
    ensures cause { result ≡ Ending.WriteFault → fault ≡ OutFault.Failed }
{
    match fault {
        OutFault::Failed => Ending::WriteFault,
        OutFault::Memory => Ending::Memory,
    }
}

// Prints the block of an answer.
fn print_block<O: Sink>(
    alloc: Global,
    program: &GroundProgram,
    answer: &Answer,
    number: u64,
    out: &mut O,
) -> Result<(), OutFault>
    requires atoms { AreAtomsOf program.now answer.now.atoms }
    requires values { IsValuation program.now answer.now.values }
    ensures whole { OnOk result (Appends (O.tells out.old).written (O.tells out.new).written (block program.now answer.now number)) }
    ensures front { OnErr result (AppendsFront (O.tells out.old).written (O.tells out.new).written (block program.now answer.now number)) }
    ensures flushed { (O.tells out.new).flushed ≡ (O.tells out.old).flushed }
    ensures opened { (O.tells out.new).opened ≡ (O.tells out.old).opened }
    ensures cause { RisesWhere (IsErrOf result OutFault.Failed) (O.tells out.old).faults (O.tells out.new).faults }
{
    let mut text = Listed::new(alloc);
    match write_answer(alloc, program, answer, number, &mut text) {
        Err(_) => Err(OutFault::Memory),
        Ok(()) => write_all(out, text.items()),
    }
}

// Prints the block of an answer, and tells what came of it.
fn give<O: Sink>(
    alloc: Global,
    program: &GroundProgram,
    answer: &Answer,
    number: u64,
    out: &mut O,
) -> Turn
    requires atoms { AreAtomsOf program.now answer.now.atoms }
    requires values { IsValuation program.now answer.now.values }
    ensures gives { Gives program.now answer.now number (O.tells out.old) (O.tells out.new) result }
    ensures flushed { (O.tells out.new).flushed ≡ (O.tells out.old).flushed }
    ensures opened { (O.tells out.new).opened ≡ (O.tells out.old).opened }
    ensures cause { RisesWhere (result ≡ Turn.Broke Ending.WriteFault) (O.tells out.old).faults (O.tells out.new).faults }
{
    match print_block(alloc, program, answer, number, out) {
        Ok(()) => Turn::Printed,
        Err(fault) => Turn::Broke(broken_by(fault)),
    }
}

// The ending where no model remains and so many answers were given.
fn exhausted(answers: u64) -> Ending
    ensures { result ≡ ending_of answers }
{
    if answers == 0 {
        Ending::NoAnswer
    } else {
        Ending::All
    }
}

// Asks for one more answer, where so many were printed, and prints its block.
fn go_on<P: Propagator, O: Sink>(
    alloc: Global,
    search: &mut Search<P>,
    limit: u64,
    answers: u64,
    out: &mut O,
) -> Turn
    requires unspent { search.old.spent ≡ false }
    requires below { search.old.conflicts < limit }
    requires room { answers + 1 < 2 ^ 64 }
    ensures turns { (task : Task) (number : ℕ) (before : Output) → IsAsked task number limit → answers < number → GoesOn task answers search.old before (O.tells out.old) → Turns task answers search.new before (O.tells out.new) result }
    ensures program { search.new.program ≡ search.old.program }
    ensures flushed { (O.tells out.new).flushed ≡ (O.tells out.old).flushed }
    ensures opened { (O.tells out.new).opened ≡ (O.tells out.old).opened }
    ensures cause { RisesWhere (result ≡ Turn.Broke Ending.WriteFault) (O.tells out.old).faults (O.tells out.new).faults }
{
    match search.next(limit) {
        Err(Stop::Limit) => Turn::Ended(Ending::Limit),
        Err(Stop::Memory) => Turn::Broke(Ending::Memory),
        Ok(Event::Exhausted) => Turn::Ended(exhausted(answers)),
        Ok(Event::Answer(answer)) => give(alloc, search.ground(), &answer, answers + 1, out),
    }
}

// Prints the line of an ending whose cause stands.
fn finish<O: Sink>(out: &mut O, ending: Ending, answers: u64) -> Summary
    requires own { IsOwn ending }
    ensures ended { (task : Task) (conflicts : ℕ) (before : Output) → IsOwn result.ending → IsDue task ending answers conflicts before (O.tells out.old)
        → Ends task result.ending (counted result.answers conflicts) before (O.tells out.new) }
    ensures broken { (task : Task) (conflicts : ℕ) (before : Output) → IsBroken result.ending → IsDue task ending answers conflicts before (O.tells out.old)
        → Breaks task (counted result.answers conflicts) before (O.tells out.new) }
    ensures flushed { (O.tells out.new).flushed ≡ (O.tells out.old).flushed }
    ensures opened { (O.tells out.new).opened ≡ (O.tells out.old).opened }
    ensures cause { RisesWhere (result.ending ≡ Ending.WriteFault) (O.tells out.old).faults (O.tells out.new).faults }
{
    match write_all(out, line_of(ending)) {
        Ok(()) => Summary { ending, answers },
        Err(fault) => Summary {
            ending: broken_by(fault),
            answers,
        },
    }
}

/// Prints each constraint stable model once, up to `number` of them, and how that ended.
///
/// The search is new. Each block is written by one call as soon as its answer is there, and so is the line of the
/// ending; nothing is flushed. `limit` is the number of the conflict after which the search gives up. After want of
/// memory or a failed output the count is still told.
pub fn list<P: Propagator, O: Sink>(
    alloc: Global,
    search: &mut Search<P>,
    number: u64,
    limit: u64,
    out: &mut O,
) -> Summary
    requires new { search.old ≡ begun search.old.program (start search.old.program) }
    requires kind { search.old.program.has_objective ≡ false }
    requires number { 1 ≤ number }
    requires limit { 1 ≤ limit }

    // It ended by itself: the cause of the ending stands, and all blocks and the line of the ending are whole.
    ensures ended { IsOwn result.ending → Ends (asked search.old.program number limit) result.ending (counted result.answers search.new.conflicts) (O.tells out.old) (O.tells out.new) }

    // The output failed, or memory could not be had: the last block or the line of the ending may be cut.
    ensures broken { (result.ending ≡ Ending.WriteFault) ⊎ (result.ending ≡ Ending.Memory)
        → Breaks (asked search.old.program number limit) (counted result.answers search.new.conflicts) (O.tells out.old) (O.tells out.new) }

    // The output failed exactly where the ending says so.
    ensures fault { RisesWhere (result.ending ≡ Ending.WriteFault) (O.tells out.old).faults (O.tells out.new).faults }

    // It opens and flushes nothing, and the program stays.
    ensures flushed { (O.tells out.new).flushed ≡ (O.tells out.old).flushed }
    ensures opened { (O.tells out.new).opened ≡ (O.tells out.old).opened }
    ensures program { search.new.program ≡ search.old.program }
{
    let mut answers = 0;
    while answers < number {
        match go_on(alloc, search, limit, answers, out) {
            Turn::Printed => answers += 1,
            Turn::Ended(ending) => return finish(out, ending, answers),
            Turn::Broke(ending) => return Summary { ending, answers },
        }
    }
    finish(out, Ending::Stopped, answers)
}
