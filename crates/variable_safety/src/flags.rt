// Flags of the numbers that are listed.
ghost use Rattle.std.specs.Prelude.{◌≡◌, ◌++◌, ◌∷◌, [], ◌<◌, ◌≤◌, ℕ, false, length, not, filter, All, IfOk, OnOk, if◌then◌else◌};
ghost use Rattle.definite_rules.specs.Least.{flag_at};
ghost use Rattle.variable_safety.specs.inner.Binding.{AreFlags};

use std::alloc::Global;
use symbols::{Listed, Memory};

// A size above these numbers, which is no less than another.
pub(crate) fn above(size: usize, numbers: &[u32]) -> usize
    ensures grown { size ≤ result }
    ensures above { All (λ n. n < result) numbers.now }
{
    let mut size = size;
    for number in numbers {
        size = above_one(size, *number);
    }
    size
}

fn above_one(size: usize, number: u32) -> usize
    ensures grown { size ≤ result }
    ensures above { number < result }
{
    let behind = number as usize + 1;
    if behind > size { behind } else { size }
}

// Whether a number has its flag; the flags need not reach that far.
pub(crate) fn is_flagged(flags: &[bool], number: u32) -> bool
    ensures { result ≡ flag_at flags.now number }
{
    match flags.get(number as usize) {
        Some(flag) => *flag,
        None => false,
    }
}

// The flags of these numbers.
pub(crate) fn flags_of(alloc: Global, numbers: &[u32]) -> Result<Listed<bool>, Memory>
    ensures { IfOk result (AreFlags numbers.now) }
{
    let mut flags = vec![in alloc; false; above(0, numbers)]?;
    flag_all(numbers, &mut flags);
    Ok(Listed::from_vec(flags))
}

// Flags these numbers, where none is flagged before.
fn flag_all(numbers: &[u32], flags: &mut [bool])
    requires room { All (λ n. n < length flags.old) numbers.now }
    requires empty { (n : ℕ) → flag_at flags.old n ≡ false }
    ensures { AreFlags numbers.now flags.new }
{
    for number in numbers {
        flags[*number as usize] = true;
    }
}

// Puts those of these numbers that are not flagged behind those before them.
pub(crate) fn note_others(
    numbers: &[u32],
    flags: &[bool],
    found: &mut Listed<u32>,
) -> Result<(), Memory>
    ensures { OnOk result (found.new ≡ found.old ++ filter (λ n. not (flag_at flags.now n)) numbers.now) }
{
    for number in numbers {
        note_other(*number, flags, found)?;
    }
    Ok(())
}

fn note_other(number: u32, flags: &[bool], found: &mut Listed<u32>) -> Result<(), Memory>
    ensures { OnOk result (found.new ≡ found.old ++ (if flag_at flags.now number then [] else number ∷ [])) }
{
    if !is_flagged(flags, number) {
        found.push(number)?;
    }
    Ok(())
}
