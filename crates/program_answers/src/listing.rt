// Listing the answers of a ground program.
ghost use Rattle.std.specs.Prelude.{◌≡◌, ◌⊎◌, ◌≤◌, ◌<◌, ◌^◌, false, true, length, IsTrue, IfOk, IfErr};
ghost use Rattle.std.specs.List.{list_any};
ghost use Rattle.linear_normal.specs.Numbering.{numbering};
ghost use Rattle.derivation_meaning.specs.State.{start};
ghost use Rattle.outside_io.specs.Faults.{RisesWhere};
ghost use Rattle.propagators.specs.Tuples.{is_about_tuples};
ghost use Rattle.search_core.specs.Searching.{begun};
ghost use Rattle.enumerator.specs.Endings.{asked, counted, IsOwn, Ends, Breaks};
ghost use Rattle.program_answers.specs.Listable.{is_listable, HasFailed};

use completion::complete;
use enumerator::{Ending, list};
use ground_model::GroundProgram;
use linear_normal::{Numbered, normalise};
use outside_io::Sink;
use propagators::{Any, has_tuples, propagators_of};
use search_core::Search;
use std::alloc::Global;
use symbols::Memory;

/// How a listing ended, how many blocks were printed whole, and how many conflicts the search met.
#[derive(Clone, Copy, Debug, PartialEq, Eq)]
pub struct Listing {
    pub ending: Ending,
    pub answers: u64,
    pub conflicts: u64,
}

/// Why nothing is listed.
#[derive(Clone, Copy, Debug, PartialEq, Eq)]
pub enum ListStop {
    /// The program has an objective or a constraint about tuples.
    NotBuilt,
    /// Memory could not be had.
    Memory,
}

// Whether the search takes the program.
fn is_taken(ground: &GroundProgram, numbered: &Numbered) -> bool
    requires { numbered.now ≡ numbering ground.now }
    ensures { result ≡ is_listable ground.now }
{
    !ground.has_objective && !has_tuples(numbered)
}

// A new search for the answers of a program that it takes.
fn new_search(
    alloc: Global,
    ground: GroundProgram,
    numbered: Numbered,
) -> Result<Search<Any>, Memory>
    requires numbered { numbered ≡ numbering ground }
    requires few_bodies { length numbered.bodies < 2 ^ 32 }
    requires few_constraints { length numbered.constraints < 2 ^ 32 }
    requires listable { is_listable ground ≡ true }
    ensures { IfOk result (λ search. search ≡ begun ground (start ground)) }
{
    let input = complete(alloc, &ground, &numbered)?;
    let propagators = propagators_of(alloc, &ground, &numbered)?;
    Search::new(alloc, ground, numbered, input, propagators)
}

// A new search for the answers of a program, where it takes it.
fn search_for(alloc: Global, ground: GroundProgram) -> Result<Search<Any>, ListStop>
    ensures search { IfOk result (λ search. search ≡ begun ground (start ground)) }
    ensures listable { IfOk result (λ search. is_listable ground ≡ true) }
    ensures other { IfErr result (λ stop. stop ≡ ListStop.NotBuilt → is_listable ground ≡ false) }
{
    let numbered = match normalise(alloc, &ground) {
        Ok(numbered) => numbered,
        Err(_) => return Err(ListStop::Memory),
    };
    if !is_taken(&ground, &numbered) {
        return Err(ListStop::NotBuilt);
    }
    match new_search(alloc, ground, numbered) {
        Ok(search) => Ok(search),
        Err(_) => Err(ListStop::Memory),
    }
}

/// Prints each constraint stable model of a ground program once, up to `number` of them, and how that ended.
///
/// Each block is written by one call as soon as its answer is there, and so is the line of the ending; nothing
/// is flushed. `limit` is the number of the conflict after which the search gives up.
pub fn list_answers<O: Sink>(
    alloc: Global,
    ground: GroundProgram,
    number: u64,
    limit: u64,
    out: &mut O,
) -> Result<Listing, ListStop>
    requires number { 1 ≤ number }
    requires limit { 1 ≤ limit }

    // It ended by itself: the cause of the ending stands, and all blocks and the line of the ending are whole.
    ensures ended { IfOk result (λ found. IsOwn found.ending
        → Ends (asked ground number limit) found.ending (counted found.answers found.conflicts) (O.tells out.old) (O.tells out.new)) }

    // The output failed, or memory could not be had: the last block or the line of the ending may be cut.
    ensures broken { IfOk result (λ found. (found.ending ≡ Ending.WriteFault) ⊎ (found.ending ≡ Ending.Memory)
        → Breaks (asked ground number limit) (counted found.answers found.conflicts) (O.tells out.old) (O.tells out.new)) }

    // A program that is not listed is one of those that are not built, and nothing is printed.
    ensures listable { IfOk result (λ found. is_listable ground ≡ true) }
    ensures other { IfErr result (λ stop. stop ≡ ListStop.NotBuilt → is_listable ground ≡ false) }
    ensures nothing { IfErr result (λ stop. out.new ≡ out.old) }

    // The output failed exactly where the ending says so; it is neither flushed nor opened.
    ensures fault { RisesWhere (HasFailed result) (O.tells out.old).faults (O.tells out.new).faults }
    ensures flushed { (O.tells out.new).flushed ≡ (O.tells out.old).flushed }
    ensures opened { (O.tells out.new).opened ≡ (O.tells out.old).opened }
{
    let mut search = search_for(alloc, ground)?;
    let summary = list(alloc, &mut search, number, limit, out);
    Ok(Listing {
        ending: summary.ending,
        answers: summary.answers,
        conflicts: search.conflicts(),
    })
}
