// The nogoods of rules.
ghost use Rattle.std.specs.Prelude.{◌≡◌, ◌++◌, ◌<◌, ◌^◌, length, OnOk, IsTrue};
ghost use Rattle.std.specs.List.{flat_map};
ghost use Rattle.linear_normal.specs.Bodies.{is_bounded as bounded_test, bodies_in, placed};
ghost use Rattle.linear_normal.specs.Demands.{bounds_of};
ghost use Rattle.linear_normal.specs.Numbering.{contents_in, numbering};
ghost use Rattle.completion.specs.Inputs.{rule_nogoods};
ghost use Rattle.completion.specs.inner.Parts.{duty_count_of};

use crate::body::{add_bodies, add_duties};
use ground_model::{GroundChoice, GroundHead, GroundProgram, GroundRule};
use linear_normal::Numbered;
use literals::Nogood;
use std::alloc::Global;
use symbols::{Listed, Memory};

// Whether a choice has a bound.
fn is_bounded(choice: &GroundChoice) -> bool
    ensures { result ≡ bounded_test choice.now }
{
    choice.left.is_some() || choice.right.is_some()
}

// How many bodies a rule has.
fn body_count(rule: &GroundRule) -> usize
    requires { length (bodies_in rule.now) < 2 ^ 32 }
    ensures { result ≡ length (bodies_in rule.now) }
{
    match &rule.head {
        GroundHead::Choice(choice) => {
            if is_bounded(choice) {
                1 + choice.items.len() + choice.items.len()
            } else {
                1 + choice.items.len()
            }
        }
        _ => 1,
    }
}

// How many duties a rule has.
fn duty_count(rule: &GroundRule) -> usize
    ensures { result ≡ duty_count_of rule.now.head }
{
    match &rule.head {
        GroundHead::Choice(choice) => {
            usize::from(choice.left.is_some()) + usize::from(choice.right.is_some())
        }
        _ => 1,
    }
}

// Adds the nogoods of each rule's bodies and duties.
pub(crate) fn add_rules(
    alloc: Global,
    ground: &GroundProgram,
    numbered: &Numbered,
    nogoods: &mut Listed<Nogood>,
) -> Result<(), Memory>
    requires numbered { numbered.now ≡ numbering ground.now }
    requires fits { length numbered.now.bodies < 2 ^ 32 }
    ensures { OnOk result (nogoods.new ≡ nogoods.old
        ++ flat_map (rule_nogoods (contents_in ground.now) (length ground.now.atoms) (length ground.now.variables)) (placed 1 ground.now.rules)) }
{
    let mut bodies = numbered.bodies.items();
    let mut duties = numbered.duties.items();
    let mut first = 1;
    for rule in ground.rules.items() {
        let (own, later) = bodies.split_at(body_count(rule));
        let (due, others) = duties.split_at(duty_count(rule));
        add_bodies(alloc, first, own, nogoods)?;
        add_duties(alloc, due, nogoods)?;
        first += own.len();
        bodies = later;
        duties = others;
    }
    Ok(())
}
