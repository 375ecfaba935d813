// The variables of a rule in the order of its text.
ghost use Rattle.std.specs.Prelude.{◌≡◌, ◌<◌, ◌≤◌, [], length, Some, IfOk, OnOk};
ghost use Rattle.std.specs.List.{AllByRecursion};
ghost use Rattle.rewriting.specs.Order.{order_in, variable_in};
ghost use Rattle.rewriting.specs.inner.Flags.{IsBelow, AreFlags, noted};

use crate::sight::Sight;
use std::alloc::Global;
use symbols::{Listed, Memory};

// The variables that are seen, each where it is first.
pub(crate) fn order(alloc: Global, sights: &[Sight]) -> Result<Listed<u32>, Memory>
    ensures { IfOk result (λ order. order ≡ order_in sights.now) }
{
    let mut flags = vec![in alloc; false; size(sights)]?;
    let mut order = Listed::new(alloc);
    note_all(sights, &mut flags, &mut order)?;
    Ok(order)
}

// Puts the variables that are seen into an empty list, each where it is first.
fn note_all(sights: &[Sight], flags: &mut [bool], order: &mut Listed<u32>) -> Result<(), Memory>
    requires below { AllByRecursion (IsBelow (length flags.old)) sights.now }
    requires flags { AreFlags flags.old order.old }
    requires empty { order.old ≡ [] }
    ensures { OnOk result (order.new ≡ order_in sights.now) }
{
    for sight in sights {
        note_seen(sight, flags, order)?;
    }
    Ok(())
}

// The variable that is seen.
fn variable(sight: &Sight) -> Option<u32>
    ensures { result ≡ variable_in sight.now }
{
    match sight {
        Sight::Variable(number) => Some(*number),
        Sight::Anonymous(number) => Some(*number),
        Sight::Interval(number) => Some(*number),
        Sight::Atom => None,
    }
}

// A number above those of the variables that are seen.
fn size(sights: &[Sight]) -> usize
    ensures { AllByRecursion (IsBelow result) sights.now }
{
    let mut size = 0;
    for sight in sights {
        size = above(size, sight);
    }
    size
}

// The greater of a size and the number behind the variable's that is seen.
fn above(size: usize, sight: &Sight) -> usize
    ensures size { size ≤ result }
    ensures number { IsBelow result sight.now }
{
    match variable(sight) {
        Some(number) => {
            let behind = number as usize + 1;
            if behind > size { behind } else { size }
        }
        None => size,
    }
}

// Puts the variable that is seen behind those before it, unless it is among them.
fn note_seen(sight: &Sight, flags: &mut [bool], order: &mut Listed<u32>) -> Result<(), Memory>
    requires below { IsBelow (length flags.old) sight.now }
    requires flags { AreFlags flags.old order.old }
    ensures flags { OnOk result (AreFlags flags.new order.new) }
    ensures order { OnOk result (order.new ≡ noted (variable_in sight.now) order.old) }
{
    match variable(sight) {
        Some(number) => note(number, flags, order),
        None => Ok(()),
    }
}

// Puts a variable behind those before it, unless it is among them.
fn note(number: u32, flags: &mut [bool], order: &mut Listed<u32>) -> Result<(), Memory>
    requires below { number < length flags.old }
    requires flags { AreFlags flags.old order.old }
    ensures flags { OnOk result (AreFlags flags.new order.new) }
    ensures order { OnOk result (order.new ≡ noted (Some number) order.old) }
{
    if flags[number as usize] {
        return Ok(());
    }
    order.push(number)?;
    flags[number as usize] = true;
    Ok(())
}
