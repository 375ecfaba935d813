// Lines of each kind, read from behind their letter. What is read is the line that the bytes spell, if they
// spell one; that they do is not told here.
ghost use Rattle.std.specs.Prelude.{◌≡◌, IfOk, option_map};
ghost use Rattle.derivation.specs.Reading as read;
ghost use Rattle.derivation.specs.Reading.{reading};

use crate::line::Line;
use crate::lists::{atoms, last_lits, numbers, pivots, values};
use crate::numbers::{byte_at, integer, skip, small, value, wide, window_end};
use std::alloc::Global;
use symbols::{Listed, Memory};

// The line that the bytes spell, if they spell one.
pub(crate) fn line_at(alloc: Global, bytes: &[u8]) -> Result<Option<Line>, Memory>
    ensures { IfOk result (λ found. found ≡ reading bytes.now) }
{
    let rest = skip(bytes, 1);
    match byte_at(bytes, 0) {
        b'p' => Ok(header(rest)),
        b's' => sum(alloc, rest),
        b'd' => distinct(alloc, rest),
        b'g' => disjoint(alloc, rest),
        b'u' => support_loop(alloc, rest),
        b'w' => hole(alloc, rest),
        b'r' => learned(alloc, rest),
        b'm' => answer(alloc, rest),
        b'o' => better(alloc, rest),
        b'q' => Ok(end(rest)),
        _ => Ok(None),
    }
}

// A header, whose version is 1.
fn header(bytes: &[u8]) -> Option<Line>
    ensures { result ≡ read.header_at bytes.now }
{
    let (min, rest) = value(skip(bytes, 12))?;
    let (max, after) = value(skip(rest, 1))?;
    let (limit, _) = wide(skip(after, 1))?;
    Some(Line::Header(1, min, max, limit))
}

// Two ends of a window, each behind its blank.
#[tactic(auto, unfolding(crate::specs::Reading::ends_at))]
fn ends(bytes: &[u8]) -> Option<((i64, i64), &[u8])>
    ensures { option_map (λ x. (x.0, x.1.now)) result ≡ read.ends_at bytes.now }
{
    let (a, rest) = window_end(skip(bytes, 1))?;
    let (b, after) = window_end(skip(rest, 1))?;
    Some(((a, b), after))
}

// Two numbers, each behind its blank.
#[tactic(auto, unfolding(crate::specs::Reading::pair_at))]
fn pair(bytes: &[u8]) -> Option<((u32, u32), &[u8])>
    ensures { option_map (λ x. (x.0, x.1.now)) result ≡ read.pair_at bytes.now }
{
    let (i, rest) = small(skip(bytes, 1))?;
    let (j, after) = small(skip(rest, 1))?;
    Some(((i, j), after))
}

// The end of a derivation.
fn end(bytes: &[u8]) -> Option<Line>
    ensures { result ≡ read.end_at bytes.now }
{
    let kind = byte_at(bytes, 1);
    if kind == b'n' {
        return Some(Line::EndNone);
    }
    if kind == b'a' {
        let (count, _) = wide(skip(bytes, 5))?;
        return Some(Line::EndAll(count));
    }
    let (cost, _) = integer(skip(bytes, 6))?;
    Some(Line::EndBest(cost))
}

// A sum.
fn sum(alloc: Global, bytes: &[u8]) -> Result<Option<Line>, Memory>
    ensures { IfOk result (λ found. found ≡ read.sum_at bytes.now) }
{
    let Some((c, rest)) = small(skip(bytes, 1)) else {
        return Ok(None);
    };
    let lits = last_lits(alloc, rest)?;
    Ok(Some(Line::Sum(c, lits)))
}

// A variable with no number left.
fn hole(alloc: Global, bytes: &[u8]) -> Result<Option<Line>, Memory>
    ensures { IfOk result (λ found. found ≡ read.hole_at bytes.now) }
{
    let Some((c, rest)) = small(skip(bytes, 1)) else {
        return Ok(None);
    };
    let lits = last_lits(alloc, rest)?;
    Ok(Some(Line::Hole(c, lits)))
}

// A distinct constraint.
fn distinct(alloc: Global, bytes: &[u8]) -> Result<Option<Line>, Memory>
    ensures { IfOk result (λ found. found ≡ read.distinct_at bytes.now) }
{
    let Some((c, rest)) = small(skip(bytes, 1)) else {
        return Ok(None);
    };
    let Some(((a, b), after)) = ends(rest) else {
        return Ok(None);
    };
    let lits = last_lits(alloc, after)?;
    Ok(Some(Line::Distinct(c, a, b, lits)))
}

// A disjoint constraint: a window or a pair.
fn disjoint(alloc: Global, bytes: &[u8]) -> Result<Option<Line>, Memory>
    ensures { IfOk result (λ found. found ≡ read.disjoint_at bytes.now) }
{
    let Some((c, rest)) = small(skip(bytes, 1)) else {
        return Ok(None);
    };
    if byte_at(rest, 1) == b'w' {
        window_of(alloc, c, skip(rest, 2))
    } else {
        pair_of(alloc, c, skip(rest, 2))
    }
}

// A window of the constraint.
fn window_of(alloc: Global, c: u32, bytes: &[u8]) -> Result<Option<Line>, Memory>
    ensures { IfOk result (λ found. found ≡ read.window_at c bytes.now) }
{
    let Some(((a, b), after)) = ends(bytes) else {
        return Ok(None);
    };
    let lits = last_lits(alloc, after)?;
    Ok(Some(Line::Window(c, a, b, lits)))
}

// A pair of places of the constraint.
fn pair_of(alloc: Global, c: u32, bytes: &[u8]) -> Result<Option<Line>, Memory>
    ensures { IfOk result (λ found. found ≡ read.places_at c bytes.now) }
{
    let Some(((i, j), after)) = pair(bytes) else {
        return Ok(None);
    };
    let lits = last_lits(alloc, after)?;
    Ok(Some(Line::Pair(c, i, j, lits)))
}

// A loop.
fn support_loop(alloc: Global, bytes: &[u8]) -> Result<Option<Line>, Memory>
    ensures { IfOk result (λ found. found ≡ read.loop_at bytes.now) }
{
    let mut found = Listed::new(alloc);
    let rest = numbers(bytes, &mut found)?;
    let lits = last_lits(alloc, rest)?;
    Ok(Some(Line::Loop(found, lits)))
}

// A learned nogood.
fn learned(alloc: Global, bytes: &[u8]) -> Result<Option<Line>, Memory>
    ensures { IfOk result (λ found. found ≡ read.learned_at bytes.now) }
{
    let Some((id, rest)) = wide(skip(bytes, 1)) else {
        return Ok(None);
    };
    let mut found = Listed::new(alloc);
    let after = pivots(rest, &mut found)?;
    let lits = last_lits(alloc, after)?;
    Ok(Some(Line::Learned(id, found, lits)))
}

// An answer.
fn answer(alloc: Global, bytes: &[u8]) -> Result<Option<Line>, Memory>
    ensures { IfOk result (λ found. found ≡ read.answer_at bytes.now) }
{
    let mut found = Listed::new(alloc);
    let rest = atoms(bytes, &mut found)?;
    let mut named = Listed::new(alloc);
    values(rest, &mut named)?;
    Ok(Some(Line::Answer(found, named)))
}

// A better answer.
fn better(alloc: Global, bytes: &[u8]) -> Result<Option<Line>, Memory>
    ensures { IfOk result (λ found. found ≡ read.better_at bytes.now) }
{
    let Some((cost, rest)) = integer(skip(bytes, 1)) else {
        return Ok(None);
    };
    let mut found = Listed::new(alloc);
    let after = atoms(rest, &mut found)?;
    let mut named = Listed::new(alloc);
    values(after, &mut named)?;
    Ok(Some(Line::Better(cost, found, named)))
}
