// Sums moved to one side.
//
// The pairs of both sides are gathered, those of the right side with opposite coefficients, and those of one
// variable are joined.
ghost use Rattle.std.specs.Prelude.{◌≡◌, ◌++◌, ◌*◌, ◌-ℤ◌, ◌<◌, ◌≤◌, ◌^◌, true, [], ◌∷◌, length, map, unsigned_abs, IsTrue, IfOk, OnOk};
ghost use Rattle.std.specs.List.{AllByRecursion};
ghost use Rattle.ground_model.specs.Sound.{is_small, first_places, total_constant as constant_of};
ghost use Rattle.linear_normal.specs.Demands.{moved_pairs};
ghost use Rattle.linear_normal.specs.Numbering.{objective_in};
ghost use Rattle.linear_normal.specs.inner.Sums.{IsSoundOver, HasSmallCoefficient, HasSmallNumbers, opposite_pair, pairs_in, both_sides};

use crate::joined::joined;
use ground_model::{GroundProgram, Linear, Place, Relation};
use std::alloc::Global;
use symbols::Memory;

// The variables of a relation moved to the left, with what stands on the right as the constant.
//
// It takes the time of sorting the relation's pairs, however many variables there are.
pub(crate) fn relation_sum(
    alloc: Global,
    variables: usize,
    relation: &Relation,
) -> Result<Linear, Memory>
    requires { IsSoundOver variables relation.now }
    ensures pairs { IfOk result (λ linear. linear.pairs ≡ moved_pairs variables (first_places relation.now.elements) (relation.now.right ∷ [])) }
    ensures constant { IfOk result (λ linear. linear.constant ≡ relation.now.right.constant -ℤ constant_of (first_places relation.now.elements)) }
{
    let gathered = relation_pairs(alloc, relation)?;
    let pairs = joined(alloc, variables, gathered)?;
    let constant = number_over(relation.elements.items(), &relation.right);
    Ok(Linear { pairs, constant })
}

// What a program minimises, as one linear term.
pub(crate) fn objective_sum(alloc: Global, ground: &GroundProgram) -> Result<Linear, Memory>
    ensures { IfOk result (λ linear. linear ≡ objective_in (length ground.now.variables) ground.now.smaller ground.now.larger) }
{
    let smaller = ground.smaller.items();
    let larger = ground.larger.items();
    let gathered = objective_pairs(alloc, smaller, larger)?;
    let pairs = joined(alloc, ground.variables.len(), gathered)?;
    let constant = number_between(smaller, larger);
    Ok(Linear { pairs, constant })
}

// The pairs of both sides of a relation, those on the right with opposite coefficients.
fn relation_pairs(alloc: Global, relation: &Relation) -> Result<Vec<(u32, i64)>, Memory>
    requires { AllByRecursion HasSmallCoefficient relation.now.right.pairs }
    ensures { IfOk result (λ pairs. pairs.items ≡ pairs_in (first_places relation.now.elements) ++ map opposite_pair relation.now.right.pairs) }
{
    let mut gathered = Vec::new(alloc);
    add_places(&mut gathered, relation.elements.items())?;
    take_pairs(&mut gathered, relation.right.pairs.items())?;
    Ok(gathered)
}

// The pairs of tuples and those of others, the latter with opposite coefficients.
fn objective_pairs(
    alloc: Global,
    smaller: &[Place],
    larger: &[Place],
) -> Result<Vec<(u32, i64)>, Memory>
    requires { AllByRecursion HasSmallNumbers larger.now }
    ensures { IfOk result (λ pairs. pairs.items ≡ both_sides (first_places smaller.now) (first_places larger.now)) }
{
    let mut gathered = Vec::new(alloc);
    add_places(&mut gathered, smaller)?;
    take_places(&mut gathered, larger)?;
    Ok(gathered)
}

// Adds the pairs of tuples' first places.
fn add_places(gathered: &mut Vec<(u32, i64)>, places: &[Place]) -> Result<(), Memory>
    ensures { OnOk result (gathered.new.items ≡ gathered.old.items ++ pairs_in (first_places places.now)) }
{
    for place in places {
        gathered.extend_from_slice(place.linear.pairs.items())?;
    }
    Ok(())
}

// Adds pairs with opposite coefficients.
fn take_pairs(gathered: &mut Vec<(u32, i64)>, pairs: &[(u32, i64)]) -> Result<(), Memory>
    requires { AllByRecursion HasSmallCoefficient pairs.now }
    ensures { OnOk result (gathered.new.items ≡ gathered.old.items ++ map opposite_pair pairs.now) }
{
    for (variable, coefficient) in pairs {
        gathered.push((*variable, -*coefficient))?;
    }
    Ok(())
}

// Adds the pairs of tuples' first places with opposite coefficients.
fn take_places(gathered: &mut Vec<(u32, i64)>, places: &[Place]) -> Result<(), Memory>
    requires { AllByRecursion HasSmallNumbers places.now }
    ensures { OnOk result (gathered.new.items ≡ gathered.old.items ++ map opposite_pair (pairs_in (first_places places.now))) }
{
    for place in places {
        take_pairs(gathered, place.linear.pairs.items())?;
    }
    Ok(())
}

// The sum of the constants of tuples' first places.
fn total_constant(places: &[Place]) -> i128
    requires { AllByRecursion HasSmallNumbers places.now }
    ensures value { result ≡ constant_of (first_places places.now) }
    ensures size { unsigned_abs result ≤ length places.now * 2 ^ 62 }
{
    let mut sum = 0;
    for place in places {
        sum += i128::from(place.linear.constant);
    }
    sum
}

// The constant of a linear term minus those of tuples.
fn number_over(places: &[Place], linear: &Linear) -> i64
    requires places { AllByRecursion HasSmallNumbers places.now }
    requires linear { unsigned_abs linear.now.constant < 2 ^ 62 }
    requires small { is_small (constant_of (first_places places.now) -ℤ linear.now.constant) ≡ true }
    ensures { result ≡ linear.now.constant -ℤ constant_of (first_places places.now) }
{
    (i128::from(linear.constant) - total_constant(places)) as i64
}

// The constants of tuples minus those of others.
fn number_between(smaller: &[Place], larger: &[Place]) -> i64
    requires smaller { AllByRecursion HasSmallNumbers smaller.now }
    requires larger { AllByRecursion HasSmallNumbers larger.now }
    requires small { is_small (constant_of (first_places smaller.now) -ℤ constant_of (first_places larger.now)) ≡ true }
    ensures { result ≡ constant_of (first_places smaller.now) -ℤ constant_of (first_places larger.now) }
{
    (total_constant(smaller) - total_constant(larger)) as i64
}
