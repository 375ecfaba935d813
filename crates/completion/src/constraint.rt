// The nogoods of constraints.
ghost use Rattle.std.specs.Prelude.{◌≡◌, ◌++◌, ◌∷◌, [], ◌+◌, ◌≤◌, ◌<◌, ◌^◌, length, OnOk, IfOk};
ghost use Rattle.std.specs.List.{All};
ghost use Rattle.linear_normal.specs.declared.constraint.Constraint.TheVariants as c;
ghost use Rattle.literals.specs.Lits.{IsLit};
ghost use Rattle.literals.specs.Nogoods.{canonical};
ghost use Rattle.completion.specs.Inputs.{all_false, constraint_nogoods, constraints_nogoods};
ghost use Rattle.completion.specs.inner.Parts.{IsParted};

use linear_normal::Constraint;
use literals::{Lit, Nogood};
use std::alloc::Global;
use symbols::{Listed, Memory};

// Adds the nogood of these literals.
fn add(alloc: Global, lits: &[Lit], nogoods: &mut Listed<Nogood>) -> Result<(), Memory>
    requires { All IsLit lits.now }
    ensures { OnOk result (nogoods.new ≡ nogoods.old ++ canonical lits.now ∷ []) }
{
    let nogood = Nogood::from_lits(alloc, lits)?;
    nogoods.push(nogood)
}

// The literals that the bodies are false, behind a first literal.
pub(crate) fn none_true(alloc: Global, first: Lit, bodies: &[u32]) -> Result<Vec<Lit>, Memory>
    ensures { IfOk result (λ lits. lits.items ≡ first ∷ all_false bodies.now) }
{
    let mut lits = Vec::new(alloc);
    lits.push(first)?;
    for body in bodies {
        lits.push(Lit::Body(*body, false))?;
    }
    Ok(lits)
}

// Adds that a constraint is true exactly where both of two are.
fn add_both(
    alloc: Global,
    number: u32,
    one: u32,
    other: u32,
    nogoods: &mut Listed<Nogood>,
) -> Result<(), Memory>
    requires number { 1 ≤ number }
    requires one { 1 ≤ one }
    requires other { 1 ≤ other }
    ensures { OnOk result (nogoods.new ≡ nogoods.old ++ constraint_nogoods number (c.Both one other)) }
{
    let holds = Lit::Constraint(number, true);
    add(alloc, &[holds, Lit::Constraint(one, false)], nogoods)?;
    add(alloc, &[holds, Lit::Constraint(other, false)], nogoods)?;
    let fails = Lit::Constraint(number, false);
    let lits = [
        fails,
        Lit::Constraint(one, true),
        Lit::Constraint(other, true),
    ];
    add(alloc, &lits, nogoods)
}

// Adds that a constraint is true exactly where one of two is.
fn add_either(
    alloc: Global,
    number: u32,
    one: u32,
    other: u32,
    nogoods: &mut Listed<Nogood>,
) -> Result<(), Memory>
    requires number { 1 ≤ number }
    requires one { 1 ≤ one }
    requires other { 1 ≤ other }
    ensures { OnOk result (nogoods.new ≡ nogoods.old ++ constraint_nogoods number (c.Either one other)) }
{
    let holds = Lit::Constraint(number, true);
    let lits = [
        holds,
        Lit::Constraint(one, false),
        Lit::Constraint(other, false),
    ];
    add(alloc, &lits, nogoods)?;
    let fails = Lit::Constraint(number, false);
    add(alloc, &[fails, Lit::Constraint(one, true)], nogoods)?;
    add(alloc, &[fails, Lit::Constraint(other, true)], nogoods)
}

// Adds that a constraint is true exactly where one of the bodies is.
fn add_tally(
    alloc: Global,
    number: u32,
    bodies: &[u32],
    nogoods: &mut Listed<Nogood>,
) -> Result<(), Memory>
    requires number { 1 ≤ number }
    requires bodies { All (λ b. 1 ≤ b) bodies.now }
    ensures { OnOk result (nogoods.new ≡ nogoods.old ++ constraint_nogoods number (c.Tally bodies.now)) }
{
    let lits = none_true(alloc, Lit::Constraint(number, true), bodies)?;
    add(alloc, &lits, nogoods)?;
    for body in bodies {
        let pair = [Lit::Constraint(number, false), Lit::Body(*body, true)];
        add(alloc, &pair, nogoods)?;
    }
    Ok(())
}

// Adds the nogoods of a constraint.
fn add_constraint(
    alloc: Global,
    number: u32,
    constraint: &Constraint,
    nogoods: &mut Listed<Nogood>,
) -> Result<(), Memory>
    requires number { 1 ≤ number }
    requires constraint { IsParted constraint.now }
    ensures { OnOk result (nogoods.new ≡ nogoods.old ++ constraint_nogoods number constraint.now) }
{
    match constraint {
        Constraint::Both(one, other) => add_both(alloc, number, *one, *other, nogoods),
        Constraint::Either(one, other) => add_either(alloc, number, *one, *other, nogoods),
        Constraint::Tally(bodies) => add_tally(alloc, number, bodies.items(), nogoods),
        _ => Ok(()),
    }
}

// Adds the nogoods of constraints that are numbered from 1 on.
pub(crate) fn add_constraints(
    alloc: Global,
    constraints: &[Constraint],
    nogoods: &mut Listed<Nogood>,
) -> Result<(), Memory>
    requires fits { length constraints.now < 2 ^ 32 }
    requires constraints { All IsParted constraints.now }
    ensures { OnOk result (nogoods.new ≡ nogoods.old ++ constraints_nogoods 1 constraints.now) }
{
    let mut number: usize = 1;
    for constraint in constraints {
        add_constraint(alloc, number as u32, constraint, nogoods)?;
        number += 1;
    }
    Ok(())
}
