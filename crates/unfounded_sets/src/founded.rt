// The atoms that no derivation reaches, by a least model.
//
// Atoms that are false are given, and each support whose body is not false is a rule. An atom that the rules do not
// give is not false, and each body that supports it is false or has another such atom: together they are unfounded.
// And a set of atoms that are not false has none that they give, where it is unfounded.
ghost use Rattle.std.specs.Prelude.{◌≡◌, ◌++◌, ◌+◌, ◌≤◌, length, OnOk, IfOk};
ghost use Rattle.std.specs.List.{AllByRecursion};
ghost use Rattle.ground_model.specs.Answers.{IsNumbered};
ghost use Rattle.definite_rules.specs.Least.{flag_at, IsLeastClosed};
ghost use Rattle.unfounded_sets.specs.Dependence.{Fits};
ghost use Rattle.unfounded_sets.specs.inner.Open.{facts_of, open_rules, rules_on};
ghost use Rattle.unfounded_sets.specs.inner.Outer.{IsWhole, of_parts};

use crate::rows::Rows;
use crate::truth::is_true;
use definite_rules::{DefiniteRules, least_model};
use linear_normal::Support;
use literals::Lit;
use std::alloc::Global;
use symbols::{Listed, Memory};
use trail::Trail;

// Adds the atoms that are false.
fn add_facts(atoms: u32, trail: &Trail, rules: &mut DefiniteRules) -> Result<(), Memory>
    requires { atoms ≤ trail.now.shape.atoms }
    ensures { OnOk result (rules.new ≡ rules.old ++ facts_of trail.now atoms) }
{
    for at in 0..atoms {
        if !is_true(trail, Lit::Atom(at + 1, false)) {
            continue;
        }
        rules.push(at + 1, &[])?;
    }
    Ok(())
}

// Adds the supports whose bodies are not false.
fn add_open(
    bodies: &Rows,
    supports: &[Support],
    trail: &Trail,
    rules: &mut DefiniteRules,
) -> Result<(), Memory>
    requires fits { trail.now.shape.bodies ≡ length bodies.now }
    requires known { AllByRecursion (λ support. IsNumbered (length bodies.now) support.body) supports.now }
    ensures { OnOk result (rules.new ≡ rules.old ++ open_rules trail.now bodies.now supports.now) }
{
    for support in supports {
        if is_true(trail, Lit::Body(support.body, false)) {
            continue;
        }
        rules.push(support.atom, bodies.row(support.body as usize - 1))?;
    }
    Ok(())
}

// Flags the atoms that are false or that the supports with bodies that are not false give.
pub(crate) fn given(
    alloc: Global,
    atoms: u32,
    bodies: &Rows,
    supports: &[Support],
    trail: &Trail,
) -> Result<Listed<bool>, Memory>
    requires fits { Fits (of_parts atoms bodies.now supports.now) trail.now.shape }
    requires whole { IsWhole (of_parts atoms bodies.now supports.now) }
    ensures length { IfOk result (λ given. length given ≡ atoms + 1) }
    ensures closed { IfOk result (λ given. IsLeastClosed (rules_on trail.now (of_parts atoms bodies.now supports.now)) (flag_at given)) }
{
    let mut rules = DefiniteRules::new(alloc);
    add_facts(atoms, trail, &mut rules)?;
    add_open(bodies, supports, trail, &mut rules)?;
    least_model(alloc, atoms as usize + 1, &rules)
}
