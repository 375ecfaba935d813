// How many answers whole programs have.
ghost use Rattle.std.specs.Prelude.{◌≡◌, ◌<◌, ◌^◌, false, length, IsTrue, IfOk, IfNone};
ghost use Rattle.std.specs.List.{list_any};
ghost use Rattle.linear_normal.specs.Numbering.{numbering};
ghost use Rattle.completion.specs.Tight.{IsTight};
ghost use Rattle.propagators.specs.Tuples.{is_about_tuples};

use completion::{complete, is_tight};
use ground_examples::program_of;
use ground_model::GroundProgram;
use linear_normal::{Numbered, normalise};
use propagators::{Any, has_tuples, propagators_of};
use search_core::{Event, Search};
use std::alloc::Global;
use std::test::Fail;
use symbols::Memory;

// Asks for one more answer, and tells whether none remains where there is none.
fn step(search: &mut Search<Any>, limit: u64) -> Option<bool>
    requires unspent { search.old.spent ≡ false }
    requires below { search.old.conflicts < limit }
    ensures unspent { IfNone result (search.new.spent ≡ false) }
    ensures below { IfNone result (search.new.conflicts < limit) }
{
    match search.next(limit) {
        Ok(Event::Answer(answer)) => {
            drop(answer);
            None
        }
        Ok(Event::Exhausted) => Some(true),
        Err(_) => Some(false),
    }
}

// How many answers there are, where they are no more than the most and fewer conflicts than the limit tell them.
fn count(search: &mut Search<Any>, most: u64, limit: u64) -> Option<u64>
    requires unspent { search.old.spent ≡ false }
    requires below { search.old.conflicts < limit }
{
    for answers in 0..most {
        if let Some(all) = step(search, limit) {
            return if all { Some(answers) } else { None };
        }
    }
    None
}

// How many answers a program has that the search takes.
fn counted(alloc: Global, ground: GroundProgram, numbered: Numbered) -> Result<Option<u64>, Memory>
    requires numbered { numbered ≡ numbering ground }
    requires few_bodies { length numbered.bodies < 2 ^ 32 }
    requires few_constraints { length numbered.constraints < 2 ^ 32 }
    requires plain { ground.has_objective ≡ false }
    requires no_tuples { list_any is_about_tuples numbered.constraints ≡ false }
    requires tight { IsTight numbered }
{
    let input = complete(alloc, &ground, &numbered)?;
    let propagators = propagators_of(alloc, &ground, &numbered)?;
    let mut search = Search::new(alloc, ground, numbered, input, propagators)?;
    Ok(count(&mut search, 1 << 20, 1 << 20))
}

// Whether the search takes the program.
fn is_taken(alloc: Global, ground: &GroundProgram, numbered: &Numbered) -> Result<bool, Memory>
    requires { numbered.now ≡ numbering ground.now }
    ensures plain { IfOk result (λ yes. IsTrue yes → ground.now.has_objective ≡ false) }
    ensures no_tuples { IfOk result (λ yes. IsTrue yes → list_any is_about_tuples numbered.now.constraints ≡ false) }
    ensures tight { IfOk result (λ yes. IsTrue yes → IsTight numbered.now) }
{
    if ground.has_objective {
        return Ok(false);
    }
    if has_tuples(numbered) {
        return Ok(false);
    }
    is_tight(alloc, ground, numbered)
}

// How many answers a program has; nothing where the search does not take it.
fn count_of(alloc: Global, ground: GroundProgram) -> Result<Option<u64>, Memory> {
    let numbered = normalise(alloc, &ground)?;
    if is_taken(alloc, &ground, &numbered)? {
        return counted(alloc, ground, numbered);
    }
    Ok(None)
}

// Whether the program of a row has as many answers as the row begins with.
fn has_so_many(alloc: Global, row: &str) -> Result<bool, Memory> {
    let (number, text) = row.split_once(' ').unwrap_or((row, ""));
    match program_of(alloc, text)? {
        None => Ok(false),
        Some(ground) => Ok(count_of(alloc, ground)? == number.parse().ok()),
    }
}

// A number of answers, and a program.
const ROWS: &str = "1 atoms a. a1.
0 atoms a. a1 :- ~a1.
0 atoms a. a1. :- a1.
2 atoms a b. a1 :- ~a2. a2 :- ~a1.
1 atoms a b c. a1 :- ~a2. a2 :- ~a3. a3 :- a1 a2.
64 atoms a b c d e f. choose - - a1 a2 a3 a4 a5 a6.
20 atoms a b c d e f. choose >=3 <=3 a1 a2 a3 a4 a5 a6.
6 atoms a b c d e f. choose >=1 <=1 a1 a2 a3. choose >=1 <=1 a4 a5 a6. :- a1 a4. :- a2 a5. :- a3 a6.
0 atoms a b c d e f. choose >=1 <=1 a1 a2. choose >=1 <=1 a3 a4. choose >=1 <=1 a5 a6. :- a1 a3. :- a1 a5. :- a3 a5. :- a2 a4. :- a2 a6. :- a4 a6.
6 variables x. ends 0 20. dom 3 8 1.
10 variables x y. ends 0 3. sum 1*1 1*2 <=3.
21 variables x y z. ends 0 5. sum 1*1 1*2 -1*3 =0.
6 variables x y z. ends 1 3. sum 1*1 -1*2 !=0. sum 1*1 -1*3 !=0. sum 1*2 -1*3 !=0.
3 atoms a. variables x. ends 2 4. a1 :- sum 1*1 <=3. sum 1*1 <=3 :- a1.
14 atoms a. variables x. ends 0 9. choose - - a1. sum 1*1 <=3 :- a1.";

#[test]
fn each_answer_is_given_once(rt: HostRuntime) -> Result<(), Fail> {
    for row in ROWS.split('\n') {
        assert!(rt; has_so_many(rt.alloc(), row)?, "{row}");
    }
    Ok(())
}
