// The table of constraints, which finds equal ones by their hashes. A constraint's number is its place,
// counted from 1.
ghost use Rattle.std.specs.Prelude.{◌≡◌, ◌+◌, ◌<◌, ◌≤◌, ◌^◌, length, IfOk, OnOk, OnErr};
ghost use Rattle.linear_normal.specs.inner.Tables.{Puts, IsPlaceOr, ArePlaces, TakesBoth, TakesEither};

use crate::constraint::Constraint;
use indexmap::IndexSet;
use symbols::Memory;

// The number of a place; each is a `u32`.
pub(crate) fn number_at(place: usize) -> Result<u32, Memory>
    ensures number { IfOk result (λ n. n ≡ place + 1) }
    ensures err { OnErr result (2 ^ 32 ≤ place + 1) }
{
    match u32::try_from(place) {
        Ok(before) => match before.checked_add(1) {
            Some(number) => Ok(number),
            None => Err(Memory),
        },
        Err(_) => Err(Memory),
    }
}

// That so many things all have numbers.
pub(crate) fn all_numbered(count: usize) -> Result<(), Memory>
    ensures fits { OnOk result (count < 2 ^ 32) }
    ensures err { OnErr result (2 ^ 32 ≤ count) }
{
    match u32::try_from(count) {
        Ok(_) => Ok(()),
        Err(_) => Err(Memory),
    }
}

// The number of a constraint, which goes behind the others unless it is there.
pub(crate) fn put(keys: &mut IndexSet<Constraint>, key: Constraint) -> Result<u32, Memory>
    ensures counted { IfOk result (λ n. 1 ≤ n) }
    ensures puts { IfOk result (λ n. Puts keys.old.keys key keys.new.keys n) }
{
    let (place, _) = keys.insert_full(key)?;
    let number = number_at(place)?;
    Ok(number)
}

// The place of a constraint, or this one where it is not there.
fn place_or(keys: &IndexSet<Constraint>, key: &Constraint, next: usize) -> usize
    requires { length keys.now.keys ≤ next }
    ensures within { result ≤ next }
    ensures place { IsPlaceOr keys.now.keys key.now next result }
{
    match keys.get_index_of(key) {
        Some(place) => place,
        None => next,
    }
}

// The places of two constraints that go behind a third one, unless they are there.
fn part_places(keys: &IndexSet<Constraint>, one: &Constraint, other: &Constraint) -> (usize, usize)
    ensures { ArePlaces keys.now.keys one.now other.now result.0 result.1 }
{
    let count = keys.len();
    let first = place_or(keys, one, count + 1);
    if other == one {
        return (first, first);
    }
    (first, place_or(keys, other, first.max(count) + 1))
}

// The number of "is", whose parts are at most and at least.
pub(crate) fn add_both(
    keys: &mut IndexSet<Constraint>,
    one: Constraint,
    other: Constraint,
) -> Result<u32, Memory>
    ensures counted { IfOk result (λ n. 1 ≤ n) }
    ensures takes { IfOk result (λ n. TakesBoth keys.old.keys one other keys.new.keys n) }
{
    let (first, second) = part_places(keys, &one, &other);
    let i = number_at(first)?;
    let j = number_at(second)?;
    let number = put(keys, Constraint::Both(i, j))?;
    put(keys, one)?;
    put(keys, other)?;
    Ok(number)
}

// The number of "is not", whose parts are less and more.
pub(crate) fn add_either(
    keys: &mut IndexSet<Constraint>,
    one: Constraint,
    other: Constraint,
) -> Result<u32, Memory>
    ensures counted { IfOk result (λ n. 1 ≤ n) }
    ensures takes { IfOk result (λ n. TakesEither keys.old.keys one other keys.new.keys n) }
{
    let (first, second) = part_places(keys, &one, &other);
    let i = number_at(first)?;
    let j = number_at(second)?;
    let number = put(keys, Constraint::Either(i, j))?;
    put(keys, one)?;
    put(keys, other)?;
    Ok(number)
}
