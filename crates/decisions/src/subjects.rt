// Places of atoms, constraints, bodies and variables in one order.
ghost use Rattle.std.specs.Prelude.{IfSome};
ghost use Rattle.decisions.specs.Open.{IsOpen};
ghost use Rattle.decisions.specs.inner.Subjects.{IsSubject};

use crate::split::split;
use literals::Lit;
use trail::{Shape, Trail};

/// What can be decided: a truth, here with the sign that is preferred, or the value of a variable.
#[derive(Clone, Copy, Debug)]
pub(crate) enum Subject {
    Truth(Lit),
    Variable(u32),
}

/// What stands at the place, if anything does: atoms first, then constraints, bodies and variables. `saved` is the truth
/// that it had last; else atoms and constraints are preferred false, and bodies true.
pub(crate) fn subject_at(shape: Shape, place: u32, saved: Option<i32>) -> Option<Subject>
    ensures { IfSome result (IsSubject shape) }
{
    if place < shape.atoms {
        return Some(Subject::Truth(Lit::Atom(place + 1, saved == Some(1))));
    }
    let behind = place - shape.atoms;
    if behind < shape.constraints {
        return Some(Subject::Truth(Lit::Constraint(behind + 1, saved == Some(1))));
    }
    let behind = behind - shape.constraints;
    if behind < shape.bodies {
        return Some(Subject::Truth(Lit::Body(behind + 1, saved != Some(0))));
    }
    let behind = behind - shape.bodies;
    if behind < shape.variables {
        return Some(Subject::Variable(behind + 1));
    }
    None
}

// The place of the number among those that begin here, where it is below 2^32.
fn place_from(begin: Option<u32>, n: u32) -> Option<u32> {
    match begin {
        None => None,
        Some(begin) => match n.checked_sub(1) {
            None => None,
            Some(behind) => begin.checked_add(behind),
        },
    }
}

fn end_from(begin: Option<u32>, count: u32) -> Option<u32> {
    match begin {
        None => None,
        Some(begin) => begin.checked_add(count),
    }
}

/// The place of what the literal is about, where it is below 2^32.
pub(crate) fn place_of(shape: Shape, lit: Lit) -> Option<u32> {
    let constraints = Some(shape.atoms);
    let bodies = end_from(constraints, shape.constraints);
    let variables = end_from(bodies, shape.bodies);
    match lit {
        Lit::Atom(n, _) => place_from(Some(0), n),
        Lit::Constraint(n, _) => place_from(constraints, n),
        Lit::Body(n, _) => place_from(bodies, n),
        Lit::AtMost(x, _) | Lit::AtLeast(x, _) => place_from(variables, x),
    }
}

/// How many places there are, at most 2^32 - 1.
pub(crate) fn places_of(shape: Shape) -> u32 {
    let bodies = end_from(Some(shape.atoms), shape.constraints);
    let variables = end_from(bodies, shape.bodies);
    match end_from(variables, shape.variables) {
        Some(count) => count,
        None => u32::MAX,
    }
}

/// An open literal of the subject, if there is one.
pub(crate) fn open_of(trail: &Trail, subject: Subject, saved: Option<i32>) -> Option<Lit>
    requires { IsSubject trail.now.shape subject }
    ensures { IfSome result (IsOpen trail.now) }
{
    match subject {
        Subject::Variable(x) => split(trail, x, saved),
        Subject::Truth(lit) => {
            if trail.truth(lit).is_none() {
                Some(lit)
            } else {
                None
            }
        }
    }
}
