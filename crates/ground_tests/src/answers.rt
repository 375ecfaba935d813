// Which atoms and values are answers, and how an answer is printed.
ghost use Rattle.std.specs.Prelude.{IfOk, IfSome};

use ground_examples::program_of;
use ground_model::{Answer, GroundProgram, copy_ground, is_answer, write_answer};
use std::alloc::Global;
use std::test::Fail;
use symbols::{Listed, Memory};

// The atoms and values of a text, as in `1,2|-3`.
fn answer_of(alloc: Global, text: &str) -> Result<Answer, Memory> {
    let mut atoms = Listed::new(alloc);
    let mut values = Listed::new(alloc);
    let (left, right) = text.split_once('|').unwrap_or(("", ""));
    for word in left.split(',') {
        if let Ok(atom) = word.parse() {
            atoms.push(atom)?;
        }
    }
    for word in right.split(',') {
        if let Ok(value) = word.parse() {
            values.push(value)?;
        }
    }
    Ok(Answer { atoms, values })
}

// Whether those behind `+` are answers of the program's copy, and the others none.
fn answers_so(alloc: Global, program: &GroundProgram, texts: &str) -> Result<bool, Memory> {
    let copy = copy_ground(alloc, program)?;
    for text in texts.split_whitespace() {
        let (sign, wanted) = match text.strip_prefix('+') {
            Some(rest) => (true, rest),
            None => (false, text.strip_prefix('-').unwrap_or(text)),
        };
        let answer = answer_of(alloc, wanted)?;
        if is_answer(alloc, &copy, &answer)? != sign {
            return Ok(false);
        }
    }
    Ok(true)
}

// Whether the text is a program with these answers.
fn has_answers(alloc: Global, text: &str, answers: &str) -> Result<bool, Memory> {
    match program_of(alloc, text)? {
        Some(program) => answers_so(alloc, &program, answers),
        None => Ok(false),
    }
}

#[test]
fn atoms_and_values_are_answers(rt: HostRuntime) -> Result<(), Fail> {
    let rows = [
        (
            "atoms a. variables x. dom 1 2 1. a1 :- sum 1*1 <=1.",
            "+1|1 -1|2 +|2 -|1 -1|0 -|3 -1| -1|1,1 -2|1",
        ),
        (
            "atoms a b. a1 :- ~a2. a2 :- ~a1.",
            "+1| +2| -| -1,2| -2,1| -1,1| -1|0",
        ),
        (
            "atoms a b c. choose - - a3. a1 :- a2. a2 :- a1. a1 :- a3.",
            "+| +1,2,3| -1,2| -3| -1,3|",
        ),
        (
            "atoms a. variables x. ends 2 4. a1 :- sum 1*1 <=3. sum 1*1 <=3 :- a1.",
            "+1|2 +1|3 +|4 -1|4 -|2 -|3 -1|1 -|5",
        ),
        (
            "atoms a b. choose >=1 <=1 a1/a2 a1/~a2 a2.",
            "+1| +2| -| -1,2|",
        ),
        ("atoms a b. choose >=2 - a1/a2 a2.", "+1,2| -| -1| -2|"),
        ("atoms a. a1. :- a1.", "-1| -|"),
        ("atoms a. a1. :- ~a1.", "+1| -|"),
    ];
    for (program, answers) in rows {
        assert!(rt; has_answers(rt.alloc(), program, answers)?, "{program}");
    }
    Ok(())
}

#[test]
fn values_meet_theory_atoms(rt: HostRuntime) -> Result<(), Fail> {
    let rows = [
        ("variables x. sum 1*1 !=3.", "+|2 -|3 +|4"),
        ("variables x y. sum 2*1 -1*2 5 <1.", "+|0,5 -|0,4"),
        (
            "variables x y. dom 0 0 1. dom 0 0 2. disjoint 1*1@0 1*2@3.",
            "+|0,0",
        ),
        (
            "variables x y. dom 0 0 1. dom 0 0 2. disjoint 1*1@1 1*2@3.",
            "-|0,0",
        ),
        (
            "variables x y. disjoint 1*1@2 1*2@3.",
            "+|0,2 -|0,1 +|3,0 -|2,0",
        ),
        ("variables x. distinct 1*1.", "+|0 +|-7"),
        ("variables x y. distinct 1*1 1*2.", "+|0,1 -|1,1"),
    ];
    for (program, answers) in rows {
        assert!(rt; has_answers(rt.alloc(), program, answers)?, "{program}");
    }
    Ok(())
}

// The block of an answer; nothing where it is none.
#[tactic(auto, using(ground_model::proofs::AnswerLemmas::answer_atoms))]
fn block(
    alloc: Global,
    program: &GroundProgram,
    answer: &Answer,
    number: u64,
) -> Result<Listed<u8>, Memory> {
    let mut out = Listed::new(alloc);
    if is_answer(alloc, program, answer)? {
        write_answer(alloc, program, answer, number, &mut out)?;
    }
    Ok(out)
}

// Whether an answer of the program with shown and hidden atoms is printed so.
fn is_printed(alloc: Global, answer: &str, number: u64, wanted: &str) -> Result<bool, Memory> {
    let text = "atoms b a. hidden c. variables y x. a1. a2. a3. minimize 5*2. maximize 1*1.";
    let answer = answer_of(alloc, answer)?;
    match program_of(alloc, text)? {
        Some(program) => {
            Ok(block(alloc, &program, &answer, number)?.items() == wanted.as_bytes())
        }
        None => Ok(false),
    }
}

#[test]
fn blocks_are_in_symbol_order_with_values_and_cost(rt: HostRuntime) -> Result<(), Fail> {
    let rows = [
        ("1,2,3|-1,2", 3, "Answer: 3\na b x=2 y=-1\nCost: 11\n"),
        (
            "1,2,3|1073741823,-1073741823",
            u64::MAX,
            "Answer: 18446744073709551615\na b x=-1073741823 y=1073741823\nCost: -6442450938\n",
        ),
        ("1,2|0,0", 1, ""),
    ];
    for (answer, number, wanted) in rows {
        assert!(rt; is_printed(rt.alloc(), answer, number, wanted)?, "{answer}");
    }
    Ok(())
}
