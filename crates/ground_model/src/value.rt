// The values of linear terms and of sums of tuples.
ghost use Rattle.std.specs.Prelude.{◌≡◌, ◌<◌, ◌≤◌, ◌^◌, ◌*ℤ◌, [], length, map, unsigned_abs};
ghost use Rattle.std.specs.List.{AllByRecursion};
ghost use Rattle.ground_model.specs.Truth.{compares, value_of, sum_of};
ghost use Rattle.ground_model.specs.View.{linear_of, place_of};
ghost use Rattle.ground_model.specs.Answers.{value_at};
ghost use Rattle.ground_model.specs.Sizes.{IsModest, IsSoundPair, IsSizedLinear, AreSizedPlaces, IsSizedRelation};
ghost use Rattle.ground_model.specs.Ways.{relation_holds as relation_test};

use crate::linear::{Linear, Place, Relation};
use symbols::Rel;

// A coefficient times its variable's value.
fn term_value(variable: u32, coefficient: i64, values: &[i32]) -> i128
    requires pair { IsSoundPair (length values.now) (variable, coefficient) }
    requires values { AllByRecursion IsModest values.now }
    ensures { result ≡ coefficient *ℤ value_at values.now variable }
{
    i128::from(coefficient) * i128::from(values[variable as usize - 1])
}

// The value of a linear term.
pub(crate) fn linear_value(linear: &Linear, values: &[i32]) -> i128
    requires linear { IsSizedLinear (length values.now) linear.now }
    requires values { AllByRecursion IsModest values.now }
    ensures value { result ≡ value_of (value_at values.now) (linear_of linear.now) }
    ensures size { unsigned_abs result ≤ 2 ^ 109 }
{
    let mut sum = i128::from(linear.constant);
    for (variable, coefficient) in linear.pairs.items() {
        sum += term_value(*variable, *coefficient, values);
    }
    sum
}

// The sum of the first places of tuples.
pub(crate) fn sum_value(places: &[Place], values: &[i32]) -> i128
    requires places { AreSizedPlaces (length values.now) places.now }
    requires values { AllByRecursion IsModest values.now }
    ensures value { result ≡ sum_of (value_at values.now) (map (place_of []) places.now) }
    ensures size { unsigned_abs result ≤ 2 ^ 125 }
{
    let mut sum = 0;
    for place in places {
        sum += linear_value(&place.linear, values);
    }
    sum
}

// Whether a number stands in the relation to another.
pub(crate) fn compare(rel: Rel, left: i128, right: i128) -> bool
    ensures { result ≡ compares rel left right }
{
    match rel {
        Rel::Equal => left == right,
        Rel::NotEqual => left != right,
        Rel::Less => left < right,
        Rel::LessEqual => left <= right,
        Rel::Greater => left > right,
        Rel::GreaterEqual => left >= right,
    }
}

// Whether a relation holds.
pub(crate) fn relation_holds(relation: &Relation, values: &[i32]) -> bool
    requires relation { IsSizedRelation (length values.now) relation.now }
    requires values { AllByRecursion IsModest values.now }
    ensures { result ≡ relation_test (value_at values.now) relation.now }
{
    let sum = sum_value(relation.elements.items(), values);
    let right = linear_value(&relation.right, values);
    compare(relation.rel, sum, right)
}
