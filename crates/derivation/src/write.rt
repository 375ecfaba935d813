// Lines written.
ghost use Rattle.std.specs.Prelude.{◌≡◌, ◌++◌, ◌∷◌, [], codes, OnOk, OnErr, IfOk};
ghost use Rattle.derivation.specs.Spelling.{spelling, letter as letter_of, fields};
ghost use Rattle.derivation.specs.Fields.{behind};
ghost use Rattle.derivation.specs.declared.line.Line.TheVariants as line;

use crate::fields::{
    write_answer, write_cost, write_lits, write_number, write_numbers, write_pivots, write_signed,
    write_word,
};
use crate::line::Line;
use literals::Lit;
use std::alloc::Global;
use symbols::{Listed, Memory};

// The bytes of most lines.
const USUAL: usize = 120;

/// Appends the one spelling of a line and a line feed, or leaves the bytes as they were.
pub fn write_line(alloc: Global, line: &Line, out: &mut Listed<u8>) -> Result<(), Memory>
    ensures ok { OnOk result (out.new ≡ out.old ++ (spelling line.now ++ codes "\n")) }
    ensures err { OnErr result (out.new ≡ out.old) }
{
    let mut text = spelled(alloc, line, USUAL)?;
    text.push(b'\n')?;
    out.append(text.items())
}

// The spelling of a line, in a list with room for so many bytes at first.
pub(crate) fn spelled(alloc: Global, line: &Line, room: usize) -> Result<Listed<u8>, Memory>
    ensures { IfOk result (λ text. text ≡ spelling line.now) }
{
    let mut text = Listed::from_vec(Vec::with_capacity(alloc, room)?);
    text.push(letter(line))?;
    write_fields(line, &mut text)?;
    Ok(text)
}

// The letter of a line's kind.
fn letter(line: &Line) -> u8
    ensures { result ≡ letter_of line.now }
{
    match line {
        Line::Header(..) => b'p',
        Line::Sum(..) => b's',
        Line::Distinct(..) => b'd',
        Line::Window(..) | Line::Pair(..) => b'g',
        Line::Loop(..) => b'u',
        Line::Hole(..) => b'w',
        Line::Learned(..) => b'r',
        Line::Answer(..) => b'm',
        Line::Better(..) => b'o',
        Line::EndNone | Line::EndAll(_) | Line::EndBest(_) => b'q',
    }
}

// Appends the fields behind the letter, each behind its blank.
fn write_fields(line: &Line, out: &mut Listed<u8>) -> Result<(), Memory>
    ensures { OnOk result (out.new ≡ out.old ++ behind (fields line.now)) }
{
    match line {
        Line::Header(version, min, max, limit) => write_header(*version, *min, *max, *limit, out),
        Line::Sum(c, lits) => write_sum(*c, lits.items(), out),
        Line::Distinct(c, a, b, lits) => write_distinct(*c, *a, *b, lits.items(), out),
        Line::Window(c, a, b, lits) => write_window(*c, *a, *b, lits.items(), out),
        Line::Pair(c, i, j, lits) => write_pair(*c, *i, *j, lits.items(), out),
        Line::Loop(atoms, lits) => write_loop(atoms.items(), lits.items(), out),
        Line::Hole(c, lits) => write_sum(*c, lits.items(), out),
        Line::Learned(id, pivots, lits) => write_learned(*id, pivots.items(), lits.items(), out),
        Line::Answer(atoms, values) => write_answer(atoms.items(), values.items(), out),
        Line::Better(cost, atoms, values) => write_better(
            *cost,
            atoms.items(),
            values.items(),
            out,
        ),
        Line::EndNone => write_word(b"none", out),
        Line::EndAll(n) => write_end_all(*n, out),
        Line::EndBest(cost) => write_end_best(*cost, out),
    }
}

// Appends the fields of a header.
fn write_header(
    version: u8,
    min: i32,
    max: i32,
    limit: u64,
    out: &mut Listed<u8>,
) -> Result<(), Memory>
    ensures { OnOk result (out.new ≡ out.old ++ behind (fields (line.Header version min max limit))) }
{
    write_word(b"clingcon", out)?;
    write_number(u64::from(version), out)?;
    write_signed(i64::from(min), out)?;
    write_signed(i64::from(max), out)?;
    write_number(limit, out)
}

// Appends the fields of a sum.
#[tactic(auto, using(crate::proofs::WriteLaws::joined))]
fn write_sum(c: u32, lits: &[Lit], out: &mut Listed<u8>) -> Result<(), Memory>
    ensures { OnOk result (out.new ≡ out.old ++ behind (fields (line.Sum c lits.now))) }
{
    write_number(u64::from(c), out)?;
    write_lits(lits, out)
}

// Appends the fields of a distinct constraint.
#[tactic(auto, using(crate::proofs::WriteLaws::joined))]
fn write_distinct(c: u32, a: i64, b: i64, lits: &[Lit], out: &mut Listed<u8>) -> Result<(), Memory>
    ensures { OnOk result (out.new ≡ out.old ++ behind (fields (line.Distinct c a b lits.now))) }
{
    write_number(u64::from(c), out)?;
    write_signed(a, out)?;
    write_signed(b, out)?;
    write_lits(lits, out)
}

// Appends the fields of a window.
#[tactic(auto, using(crate::proofs::WriteLaws::joined))]
fn write_window(c: u32, a: i64, b: i64, lits: &[Lit], out: &mut Listed<u8>) -> Result<(), Memory>
    ensures { OnOk result (out.new ≡ out.old ++ behind (fields (line.Window c a b lits.now))) }
{
    write_number(u64::from(c), out)?;
    write_word(b"w", out)?;
    write_signed(a, out)?;
    write_signed(b, out)?;
    write_lits(lits, out)
}

// Appends the fields of a pair.
#[tactic(auto, using(crate::proofs::WriteLaws::joined))]
fn write_pair(c: u32, i: u32, j: u32, lits: &[Lit], out: &mut Listed<u8>) -> Result<(), Memory>
    ensures { OnOk result (out.new ≡ out.old ++ behind (fields (line.Pair c i j lits.now))) }
{
    write_number(u64::from(c), out)?;
    write_word(b"p", out)?;
    write_number(u64::from(i), out)?;
    write_number(u64::from(j), out)?;
    write_lits(lits, out)
}

// Appends the fields of a loop.
#[tactic(auto, using(crate::proofs::WriteLaws::joined))]
fn write_loop(atoms: &[u32], lits: &[Lit], out: &mut Listed<u8>) -> Result<(), Memory>
    ensures { OnOk result (out.new ≡ out.old ++ behind (fields (line.Loop atoms.now lits.now))) }
{
    write_numbers(atoms, out)?;
    write_lits(lits, out)
}

// Appends the fields of a learned nogood.
#[tactic(auto, using(crate::proofs::WriteLaws::joined))]
fn write_learned(
    id: u64,
    pivots: &[(Lit, u64)],
    lits: &[Lit],
    out: &mut Listed<u8>,
) -> Result<(), Memory>
    ensures { OnOk result (out.new ≡ out.old ++ behind (fields (line.Learned id pivots.now lits.now))) }
{
    write_number(id, out)?;
    write_pivots(pivots, out)?;
    write_lits(lits, out)
}

// Appends the fields of a better answer.
#[tactic(auto, using(crate::proofs::WriteLaws::joined))]
fn write_better(
    cost: i128,
    atoms: &[u32],
    values: &[(u32, i32)],
    out: &mut Listed<u8>,
) -> Result<(), Memory>
    ensures { OnOk result (out.new ≡ out.old ++ behind (fields (line.Better cost atoms.now values.now))) }
{
    write_cost(cost, out)?;
    write_answer(atoms, values, out)
}

// Appends the fields of an end with the number of answers.
fn write_end_all(n: u64, out: &mut Listed<u8>) -> Result<(), Memory>
    ensures { OnOk result (out.new ≡ out.old ++ behind (fields (line.EndAll n))) }
{
    write_word(b"all", out)?;
    write_number(n, out)
}

// Appends the fields of an end with a cost.
fn write_end_best(cost: i128, out: &mut Listed<u8>) -> Result<(), Memory>
    ensures { OnOk result (out.new ≡ out.old ++ behind (fields (line.EndBest cost))) }
{
    write_word(b"best", out)?;
    write_cost(cost, out)
}
