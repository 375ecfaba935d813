// Splitting the domain of a variable.
ghost use Rattle.std.specs.Prelude.{◌≡◌, ◌≤◌, ◌<ℤ◌, IfSome, None};
ghost use Rattle.trail.specs.Assignment.{lower_on, upper_on};
ghost use Rattle.decisions.specs.Open.{IsOpen};

use literals::Lit;
use trail::Trail;

// The middle of the domain.
fn middle(lower: i32, upper: i32) -> i32 {
    match lower.checked_add(upper) {
        Some(sum) => sum / 2,
        None => lower,
    }
}

// The bound that is nearest to say that the variable has this value: an upper one while it may be greater.
#[tactic(auto, using(crate::proofs::OpenLaws::most_open, crate::proofs::OpenLaws::least_open))]
fn towards(trail: &Trail, x: u32, lower: i32, upper: i32, value: i32) -> Lit
    requires first { 1 ≤ x }
    requires within { x ≤ trail.now.shape.variables }
    requires lower { lower ≡ lower_on trail.now x }
    requires upper { upper ≡ upper_on trail.now x }
    requires apart { lower <ℤ upper }
    ensures { IsOpen trail.now result }
{
    if upper <= value {
        Lit::AtLeast(x, upper)
    } else if lower <= value {
        Lit::AtMost(x, value)
    } else {
        Lit::AtMost(x, lower)
    }
}

/// A bound that splits the variable's domain, if it has more values than one: towards the value, or at the middle.
pub(crate) fn split(trail: &Trail, x: u32, wanted: Option<i32>) -> Option<Lit>
    requires first { 1 ≤ x }
    requires within { x ≤ trail.now.shape.variables }
    ensures some { IfSome result (IsOpen trail.now) }
    ensures none { result ≡ None → lower_on trail.now x ≡ upper_on trail.now x }
{
    let lower = trail.lower(x);
    let upper = trail.upper(x);
    let _shape = trail.shape();
    if upper <= lower {
        return None;
    }
    match wanted {
        Some(value) => Some(towards(trail, x, lower, upper, value)),
        None => Some(towards(trail, x, lower, upper, middle(lower, upper))),
    }
}
