// Arithmetic on whole numbers.
ghost use Rattle.std.specs.Prelude.{◌≡◌, ◌*ℤ◌, ◌-ℤ◌, int_div, if◌then◌else◌};
ghost use Rattle.std.specs.Int.{IsNonZero, w32};
ghost use Rattle.syntax_tree.specs.Arithmetic as spec;

use crate::term::Op;

// What arithmetic gives: a number of 32 bits, a number outside them, or nothing.
#[derive(Clone, Copy, Debug, PartialEq, Eq)]
pub(crate) enum Amount {
    Number(i32),
    Over,
    Undefined,
}

// The result of an operation on two operands.
pub(crate) fn combined(op: Op, left: Amount, right: Amount) -> Amount
    ensures { result ≡ spec.combined op left right }
{
    match (left, right) {
        (Amount::Undefined, _) => Amount::Undefined,
        (_, Amount::Undefined) => Amount::Undefined,
        (Amount::Number(a), Amount::Number(b)) => operated(op, a, b),
        (Amount::Over, Amount::Number(b)) => over_with(op, b),
        _ => Amount::Over,
    }
}

// The result where the left operand is over.
fn over_with(op: Op, right: i32) -> Amount
    ensures { result ≡ spec.combined op Amount.Over (Amount.Number right) }
{
    if is_by_zero(op, right) {
        Amount::Undefined
    } else {
        Amount::Over
    }
}

fn is_by_zero(op: Op, right: i32) -> bool
    ensures { result ≡ spec.is_by_zero op right }
{
    match op {
        Op::Divide => is_zero(right),
        Op::Remainder => is_zero(right),
        _ => false,
    }
}

fn is_zero(n: i32) -> bool
    ensures { result ≡ spec.is_zero n }
{
    n == 0
}

// The result of an operation on two numbers.
fn operated(op: Op, a: i32, b: i32) -> Amount
    ensures { result ≡ spec.combined op (Amount.Number a) (Amount.Number b) }
{
    match op {
        Op::Plus => added(a, b),
        Op::Minus => subtracted(a, b),
        Op::Times => multiplied(a, b),
        Op::Divide => divided(a, b),
        Op::Remainder => remaining(a, b),
    }
}

#[tactic(auto, using(crate::proofs::Checked::checked_fits))]
fn added(a: i32, b: i32) -> Amount
    ensures { result ≡ spec.combined Op.Plus (Amount.Number a) (Amount.Number b) }
{
    or_over(a.checked_add(b))
}

#[tactic(auto, using(crate::proofs::Checked::checked_fits))]
fn subtracted(a: i32, b: i32) -> Amount
    ensures { result ≡ spec.combined Op.Minus (Amount.Number a) (Amount.Number b) }
{
    or_over(a.checked_sub(b))
}

#[tactic(auto, using(crate::proofs::Checked::checked_fits))]
fn multiplied(a: i32, b: i32) -> Amount
    ensures { result ≡ spec.combined Op.Times (Amount.Number a) (Amount.Number b) }
{
    or_over(a.checked_mul(b))
}

// The quotient towards zero.
#[tactic(auto, using(crate::proofs::Checked::checked_quotient))]
fn divided(a: i32, b: i32) -> Amount
    ensures { result ≡ spec.combined Op.Divide (Amount.Number a) (Amount.Number b) }
{
    if b == 0 {
        return Amount::Undefined;
    }
    or_over(a.checked_div(b))
}

// The remainder that fits the quotient; it is 0 where the quotient alone is over.
fn remaining(a: i32, b: i32) -> Amount
    ensures { result ≡ spec.combined Op.Remainder (Amount.Number a) (Amount.Number b) }
{
    if b == 0 {
        return Amount::Undefined;
    }
    Amount::Number(a.wrapping_rem(b))
}

// What a checked operation gives.
fn or_over(exact: Option<i32>) -> Amount
    ensures { result ≡ spec.or_over exact }
{
    match exact {
        Some(n) => Amount::Number(n),
        None => Amount::Over,
    }
}
