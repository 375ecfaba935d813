// Literals as text, such as `a1`, `~b2`, `v3<=-4`.
ghost use Rattle.std.specs.Prelude.{◌≡◌, IsTrue, IfOk, All};
ghost use Rattle.trail.specs.Assignment.{Names};

use literals::Lit;
use std::alloc::Global;
use symbols::{Ends, Listed, Memory};
use trail::Shape;

// Nine of each kind, with variables from 0 to 9.
pub(crate) fn nine_of_each() -> Shape
    ensures atoms { result.atoms ≡ 9 }
    ensures bodies { result.bodies ≡ 9 }
    ensures constraints { result.constraints ≡ 9 }
    ensures variables { result.variables ≡ 9 }
{
    Shape {
        atoms: 9,
        bodies: 9,
        constraints: 9,
        variables: 9,
        ends: Ends { min: 0, max: 9 },
    }
}

// Whether the literal is well formed and of the shape.
pub(crate) fn is_named(shape: Shape, lit: Lit) -> bool
    ensures { IsTrue result → Names shape lit }
{
    match lit {
        Lit::Atom(n, _) => 1 <= n && n <= shape.atoms,
        Lit::Body(n, _) => 1 <= n && n <= shape.bodies,
        Lit::Constraint(n, _) => 1 <= n && n <= shape.constraints,
        Lit::AtMost(x, k) => 1 <= x && x <= shape.variables && -(1 << 30) <= k && k < 1 << 30,
        Lit::AtLeast(x, k) => 1 <= x && x <= shape.variables && -(1 << 30) < k && k <= 1 << 30,
    }
}

// The variable of a word such as `v3`.
fn variable_of(word: &str) -> u32 {
    word.strip_prefix('v').unwrap_or("").parse().unwrap_or(0)
}

// The bound of a word; one of no variable where it is none.
fn bound_of(word: &str) -> Lit {
    if let Some((name, number)) = word.split_once("<=") {
        return Lit::AtMost(variable_of(name), number.parse().unwrap_or(0));
    }
    let (name, number) = word.split_once(">=").unwrap_or((word, ""));
    Lit::AtLeast(variable_of(name), number.parse().unwrap_or(0))
}

// The literal of a word; one that no shape has where it is none.
pub(crate) fn lit_of(word: &str) -> Lit {
    let (sign, name) = match word.strip_prefix('~') {
        Some(name) => (false, name),
        None => (true, word),
    };
    if let Some(number) = name.strip_prefix('a') {
        return Lit::Atom(number.parse().unwrap_or(0), sign);
    }
    if let Some(number) = name.strip_prefix('b') {
        return Lit::Body(number.parse().unwrap_or(0), sign);
    }
    if let Some(number) = name.strip_prefix('c') {
        return Lit::Constraint(number.parse().unwrap_or(0), sign);
    }
    bound_of(name)
}

// The literals of a text that the shape has.
pub(crate) fn lits_of(alloc: Global, shape: Shape, text: &str) -> Result<Listed<Lit>, Memory>
    ensures { IfOk result (λ lits. All (Names shape) lits) }
{
    let mut lits = Listed::new(alloc);
    for word in text.split_whitespace() {
        let lit = lit_of(word);
        if is_named(shape, lit) {
            lits.push(lit)?;
        }
    }
    Ok(lits)
}

// A literal after a blank.
fn spelled(alloc: Global, lit: Lit) -> Result<String, Memory> {
    let (letter, number, sign) = match lit {
        Lit::Atom(number, sign) => ('a', number, sign),
        Lit::Body(number, sign) => ('b', number, sign),
        Lit::Constraint(number, sign) => ('c', number, sign),
        Lit::AtMost(variable, most) => return Ok(format!(in alloc; " v{variable}<={most}")?),
        Lit::AtLeast(variable, least) => return Ok(format!(in alloc; " v{variable}>={least}")?),
    };
    let mark = if sign { "" } else { "~" };
    Ok(format!(in alloc; " {mark}{letter}{number}")?)
}

// Adds a literal after a blank.
pub(crate) fn add_lit(alloc: Global, lit: Lit, out: &mut String) -> Result<(), Memory> {
    let text = spelled(alloc, lit)?;
    Ok(out.push_str(&text)?)
}

// Adds literals, a blank before each.
pub(crate) fn add_lits(alloc: Global, lits: &[Lit], out: &mut String) -> Result<(), Memory> {
    for lit in lits {
        add_lit(alloc, *lit, out)?;
    }
    Ok(())
}

// Adds a number after a mark.
pub(crate) fn add_number(
    alloc: Global,
    mark: &str,
    number: u64,
    out: &mut String,
) -> Result<(), Memory> {
    let text = format!(in alloc; "{mark}{number}")?;
    Ok(out.push_str(&text)?)
}
