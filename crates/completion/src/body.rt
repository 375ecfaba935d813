// The nogoods of bodies and of duties.
ghost use Rattle.std.specs.Prelude.{◌≡◌, ◌++◌, ◌∷◌, [], ◌+◌, ◌≤◌, ◌^◌, false, map, length, OnOk, IfOk};
ghost use Rattle.std.specs.List.{All};
ghost use Rattle.literals.specs.declared.lit.Lit.TheVariants.{Body};
ghost use Rattle.literals.specs.Lits.{IsLit};
ghost use Rattle.literals.specs.Nogoods.{canonical};
ghost use Rattle.completion.specs.Inputs.{body_nogoods, bodies_nogoods, duty_nogood as duty_lits};
ghost use Rattle.completion.specs.inner.Parts.{IsConjunction, IsDuty};

use linear_normal::{Conjunction, Duty};
use literals::{Lit, Nogood, complement};
use std::alloc::Global;
use symbols::{Listed, Memory};

// Adds that the body is true where all its literals are.
fn add_whole(
    alloc: Global,
    number: u32,
    lits: &[Lit],
    nogoods: &mut Listed<Nogood>,
) -> Result<(), Memory>
    requires number { 1 ≤ number }
    requires lits { All IsLit lits.now }
    ensures { OnOk result (nogoods.new ≡ nogoods.old ++ canonical (Body number false ∷ lits.now) ∷ []) }
{
    let mut whole = Vec::new(alloc);
    whole.push(Lit::Body(number, false))?;
    whole.extend_from_slice(lits)?;
    let nogood = Nogood::from_lits(alloc, &whole)?;
    nogoods.push(nogood)
}

// Adds that the body is true exactly where all its literals are.
fn add_body(
    alloc: Global,
    number: u32,
    lits: &[Lit],
    nogoods: &mut Listed<Nogood>,
) -> Result<(), Memory>
    requires number { 1 ≤ number }
    requires lits { All IsLit lits.now }
    ensures { OnOk result (nogoods.new ≡ nogoods.old ++ body_nogoods number lits.now) }
{
    add_whole(alloc, number, lits, nogoods)?;
    for lit in lits {
        let nogood = Nogood::from_lits(alloc, &[Lit::Body(number, true), complement(*lit)])?;
        nogoods.push(nogood)?;
    }
    Ok(())
}

// Adds the nogoods of bodies that are numbered from the first number on.
pub(crate) fn add_bodies(
    alloc: Global,
    first: usize,
    bodies: &[Conjunction],
    nogoods: &mut Listed<Nogood>,
) -> Result<(), Memory>
    requires first { 1 ≤ first }
    requires fits { first + length bodies.now ≤ 2 ^ 32 }
    requires bodies { All IsConjunction bodies.now }
    ensures { OnOk result (nogoods.new ≡ nogoods.old ++ bodies_nogoods first bodies.now) }
{
    let mut number = first;
    for body in bodies {
        add_body(alloc, number as u32, body.lits.items(), nogoods)?;
        number += 1;
    }
    Ok(())
}

// The nogood of a duty.
fn duty_nogood(alloc: Global, duty: &Duty) -> Result<Nogood, Memory>
    requires { IsDuty duty.now }
    ensures { IfOk result (λ nogood. nogood ≡ duty_lits duty.now) }
{
    match duty.head {
        Some(head) => Nogood::from_lits(alloc, &[Lit::Body(duty.body, true), complement(head)]),
        None => Nogood::from_lits(alloc, &[Lit::Body(duty.body, true)]),
    }
}

// Adds the nogoods of duties.
pub(crate) fn add_duties(
    alloc: Global,
    duties: &[Duty],
    nogoods: &mut Listed<Nogood>,
) -> Result<(), Memory>
    requires { All IsDuty duties.now }
    ensures { OnOk result (nogoods.new ≡ nogoods.old ++ map duty_lits duties.now) }
{
    for duty in duties {
        let nogood = duty_nogood(alloc, duty)?;
        nogoods.push(nogood)?;
    }
    Ok(())
}
