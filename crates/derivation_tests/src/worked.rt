// The worked derivations, and what becomes of them where a line is changed.
ghost use Rattle.std.specs.Prelude.{IfOk, IfSome};
ghost use Rattle.std.specs.List.{All};
ghost use Rattle.literals.specs.Nogoods.{IsNogood};
ghost use Rattle.derivation.specs.Lists.{lits_of};

use derivation::{Line, LineStop, read_line};
use ground_examples::program_of;
use proof_checker::{Claim, accepted_claim};
use std::alloc::Global;
use std::test::Fail;
use symbols::{Listed, Memory};

// A program and its derivation.
#[derive(Clone, Copy)]
struct Worked {
    program: &'static str,
    lines: &'static str,
}

const ODD: Worked = Worked {
    program: "atoms a. a1 :- ~a1.",
    lines: "r 2 b1 4 = a1
r 3 b1 1 ~a1 5 =
q none",
};

const EVEN: Worked = Worked {
    program: "atoms a b. a1 :- ~a2. a2 :- ~a1.",
    lines: "m a1
m a2
r 7 ~b1 2 a2 9 = a1
r 4 ~b2 6 ~a2 10 ~a1 11 =
q all 2",
};

const CROSSED: Worked = Worked {
    program: "variables x y. ends 0 1. sum 1*1 -1*2 <0. sum 1*2 -1*1 <0.",
    lines: "s 1 = c1 v1>=1
s 2 = c2 v1<=0
r 5 v1>=1 6 c1 2 b1 1 c2 4 b2 3 =
q none",
};

const EMPTY: Worked = Worked {
    program: "",
    lines: "m
q all 1",
};

const APART: Worked = Worked {
    program: "variables x y z. dom 1 2 1. dom 1 2 2. dom 1 2 3. distinct 1*1 1*2 1*3.",
    lines: "w 1 = c1 v1<=0
w 1 = c1 v1>=3
w 2 = c2 v2<=0
w 2 = c2 v2>=3
w 3 = c3 v3<=0
w 3 = c3 v3>=3
d 4 1 2 = c4 v1<=2 v1>=1 v2<=2 v2>=1 v3<=2 v3>=1
r 15 v1<=2 10 v1>=1 9 v2<=2 12 v2>=1 11 v3<=2 14 v3>=1 13 c1 2 b1 1 c2 4 b2 3 c3 6 b3 5 c4 8 b4 7 =
q none",
};

const LEAST: Worked = Worked {
    program: "variables x. ends 0 1. minimize 1*1.",
    lines: "o 0 v1=0
s 0 =
r 1 =
q best 0",
};

const LOOP: Worked = Worked {
    program: "atoms a b. a1 :- a2. a2 :- a1.",
    lines: "u 1 2 = a1
u 1 2 = a2
m
r 11 ~a1 9 ~a2 10 =
q all 1",
};

const DISJOINT: Worked = Worked {
    program: "variables x y. dom 0 0 1. dom 0 0 2. disjoint 1*1@1 1*2@3.",
    lines: "w 1 = c1 v1<=-1
w 1 = c1 v1>=1
w 2 = c2 v2<=-1
w 2 = c2 v2>=1
g 3 w 0 3 = c3 v1<=0 v1>=0 v2<=0 v2>=0
r 11 v1<=0 8 v1>=0 7 v2<=0 10 v2>=0 9 c1 2 b1 1 c2 4 b2 3 c3 6 b3 5 =
q none",
};

// The lines of texts, where each is one.
fn read_lines(alloc: Global, texts: &[&str]) -> Result<Option<Listed<Line>>, Memory>
    ensures { IfOk result (λ found. IfSome found (λ lines. All (λ line. IsNogood (lits_of line)) lines)) }
{
    let mut lines = Listed::new(alloc);
    for text in texts {
        match read_line(alloc, text.as_bytes()) {
            Ok(line) => lines.push(line)?,
            Err(LineStop::BadLine) => return Ok(None),
            Err(LineStop::Memory) => return Err(Memory),
        }
    }
    Ok(Some(lines))
}

// The claim of lines that are accepted for a program.
fn claim_of(alloc: Global, program: &str, texts: &[&str]) -> Result<Option<Claim>, Memory> {
    let Some(program) = program_of(alloc, program)? else {
        return Ok(None);
    };
    let Some(lines) = read_lines(alloc, texts)? else {
        return Ok(None);
    };
    accepted_claim(alloc, &program, lines.items())
}

// The texts of lines.
fn split_lines(alloc: Global, lines: &'static str) -> Result<Vec<&'static str>, Memory> {
    Ok(lines.split('\n').collect(alloc)?)
}

// Whether the derivation is accepted with the claim.
fn claims(alloc: Global, worked: Worked, claim: Claim) -> Result<bool, Memory> {
    let lines = split_lines(alloc, worked.lines)?;
    Ok(claim_of(alloc, worked.program, lines.as_slice())? == Some(claim))
}

#[test]
fn the_worked_derivations_are_accepted(rt: HostRuntime) -> Result<(), Fail> {
    let rows = [
        (ODD, Claim::Nothing),
        (EVEN, Claim::All(2)),
        (CROSSED, Claim::Nothing),
        (EMPTY, Claim::All(1)),
        (APART, Claim::Nothing),
        (LEAST, Claim::Best(0)),
        (LOOP, Claim::All(1)),
        (DISJOINT, Claim::Nothing),
    ];
    for (worked, claim) in rows {
        assert!(rt; claims(rt.alloc(), worked, claim)?, "{}", worked.lines);
    }
    Ok(())
}

// Whether the derivation without any one of its lines is not accepted.
fn needs_each_line(alloc: Global, worked: Worked) -> Result<bool, Memory> {
    let count = split_lines(alloc, worked.lines)?.len();
    for place in 0..count {
        let mut lines = split_lines(alloc, worked.lines)?;
        if place < lines.len() {
            lines.remove(place);
        }
        if claim_of(alloc, worked.program, lines.as_slice())?.is_some() {
            return Ok(false);
        }
    }
    Ok(true)
}

#[test]
fn no_line_may_be_left_out(rt: HostRuntime) -> Result<(), Fail> {
    for worked in [ODD, EVEN, CROSSED, EMPTY, APART, LEAST, DISJOINT] {
        assert!(rt; needs_each_line(rt.alloc(), worked)?, "{}", worked.lines);
    }
    Ok(())
}

// Whether the derivation with any two neighbours exchanged is not accepted.
fn needs_its_order(alloc: Global, worked: Worked) -> Result<bool, Memory> {
    let count = split_lines(alloc, worked.lines)?.len();
    for place in 1..count {
        let mut lines = split_lines(alloc, worked.lines)?;
        if place < lines.len() {
            lines.swap(place - 1, place);
        }
        if claim_of(alloc, worked.program, lines.as_slice())?.is_some() {
            return Ok(false);
        }
    }
    Ok(true)
}

#[test]
fn no_lines_may_be_exchanged(rt: HostRuntime) -> Result<(), Fail> {
    for worked in [ODD, EVEN, CROSSED, EMPTY, LEAST] {
        assert!(rt; needs_its_order(rt.alloc(), worked)?, "{}", worked.lines);
    }
    Ok(())
}

// Whether the derivation with another line at a place is not accepted.
fn is_refused(
    alloc: Global,
    worked: Worked,
    place: usize,
    text: &'static str,
) -> Result<bool, Memory> {
    let mut lines = split_lines(alloc, worked.lines)?;
    if place >= lines.len() {
        return Ok(false);
    }
    lines[place] = text;
    Ok(claim_of(alloc, worked.program, lines.as_slice())?.is_none())
}

// Whether the derivation with one more line at a place is not accepted.
fn is_refused_beside(
    alloc: Global,
    worked: Worked,
    place: usize,
    text: &'static str,
) -> Result<bool, Memory> {
    let mut lines = split_lines(alloc, worked.lines)?;
    if place > lines.len() {
        return Ok(false);
    }
    lines.insert(place, text)?;
    Ok(claim_of(alloc, worked.program, lines.as_slice())?.is_none())
}

#[test]
fn no_line_may_be_added_that_does_not_hold(rt: HostRuntime) -> Result<(), Fail> {
    let rows = [
        (EMPTY, 0, "q none"),
        (EMPTY, 1, "m"),
        (EMPTY, 1, "q all 0"),
        (EMPTY, 1, "p clingcon 1 0 1 1"),
        (EMPTY, 2, "m"),
        (EMPTY, 2, "r 99 ="),
        (ODD, 0, "r 2 a2 4 = a1"),
        (ODD, 0, "m"),
        (LOOP, 0, "u 1 = a1"),
        (LOOP, 2, "u 1 2 = b1"),
        (LEAST, 0, "m v1=0"),
        (LEAST, 0, "o 2 v1=2"),
        (LEAST, 0, "o 2 v1=1"),
        (LEAST, 1, "o 0 v1=0"),
        (LEAST, 1, "o 0 v2=0"),
    ];
    for (worked, place, text) in rows {
        assert!(rt;
            is_refused_beside(rt.alloc(), worked, place, text)?,
            "{text}"
        );
    }
    Ok(())
}

#[test]
fn no_line_of_atoms_may_be_changed(rt: HostRuntime) -> Result<(), Fail> {
    let rows = [
        (ODD, 0, "r 2 b1 4 = ~a1"),
        (ODD, 0, "r 2 ~b1 4 = a1"),
        (ODD, 1, "r 3 b1 1 a1 5 ="),
        (ODD, 2, "q all 1"),
        (EVEN, 0, "m a1 a2"),
        (EVEN, 1, "m a1"),
        (EVEN, 2, "r 7 ~b1 2 a2 9 = ~a1"),
        (EVEN, 3, "r 4 b2 6 ~a2 10 ~a1 11 ="),
    ];
    for (worked, place, text) in rows {
        assert!(rt; is_refused(rt.alloc(), worked, place, text)?, "{text}");
    }
    Ok(())
}

#[test]
fn no_line_of_sums_or_ends_may_be_changed(rt: HostRuntime) -> Result<(), Fail> {
    let rows = [
        (EVEN, 4, "q all 1"),
        (EVEN, 4, "q none"),
        (CROSSED, 0, "s 1 = c1 v1<=1"),
        (CROSSED, 0, "s 1 = ~c1 v1>=1"),
        (CROSSED, 0, "s 1 = c1"),
        (EMPTY, 1, "q all 2"),
        (APART, 6, "d 4 1 2 = c4 v1<=2 v1>=1 v2<=2 v2>=1"),
        (LEAST, 3, "q best 1"),
    ];
    for (worked, place, text) in rows {
        assert!(rt; is_refused(rt.alloc(), worked, place, text)?, "{text}");
    }
    Ok(())
}
