// What the answers of lines have to be.
ghost use Rattle.std.specs.Prelude.{◌≡◌, ◌↔◌, length, map, IsTrue, IfOk};
ghost use Rattle.std.specs.Cmp.Lexicographic.{pointwise};
ghost use Rattle.std.specs.List.{range_with_len};
ghost use Rattle.std.specs.Ordering.{int_eq};
ghost use Rattle.ground_model.specs.Members.{IsMember};
ghost use Rattle.derivation_meaning.specs.Lines as spec;
ghost use Rattle.proof_checker.specs.inner.Replay.{counts_from};

use ground_model::Answer;
use std::alloc::Global;
use symbols::{Listed, Memory};

// Whether the variables are numbered from 1 on.
fn are_in_order(values: &[(u32, i32)]) -> bool
    ensures { result ≡ counts_from 1 values.now }
{
    let mut next: u128 = 1;
    for value in values {
        if u128::from(value.0) != next {
            return false;
        }
        next += 1;
    }
    true
}

// Whether the values are those of so many variables, each once and in order.
#[tactic(auto, using(crate::proofs::AnswerLineLemmas::ordered_names, crate::proofs::AnswerLineLemmas::names_ordered, crate::proofs::AnswerLineLemmas::names_counted, crate::proofs::AnswerLineLemmas::names_sized))]
pub(crate) fn names_variables(values: &[(u32, i32)], count: usize) -> bool
    ensures { IsTrue result ↔ (map (λ value. value.0) values.now ≡ range_with_len 1 count) }
{
    values.len() == count && are_in_order(values)
}

// Whether the two are one list.
fn same_atoms(a: &[u32], b: &[u32]) -> bool
    ensures { IsTrue result ↔ (a.now ≡ b.now) }
{
    a == b
}

// Whether two lists of one length have the same values.
fn agree(a: &[i32], b: &[i32]) -> bool
    requires { length a.now ≡ length b.now }
    ensures { result ≡ pointwise int_eq a.now b.now }
{
    for at in 0..a.len() {
        let one = a[at];
        let other = b[at];
        if one != other {
            return false;
        }
    }
    true
}

// Whether the two are one list.
#[tactic(auto, using(crate::proofs::AnswerLineLemmas::same_numbers, crate::proofs::AnswerLineLemmas::equal_numbers, crate::proofs::AnswerLineLemmas::equal_sizes))]
fn same_values(a: &[i32], b: &[i32]) -> bool
    ensures { IsTrue result ↔ (a.now ≡ b.now) }
{
    a.len() == b.len() && agree(a, b)
}

// Whether the two have one set of atoms and one list of values.
#[tactic(auto, using(crate::proofs::AnswerLineLemmas::answers_equal, crate::proofs::AnswerLineLemmas::atoms_equal, crate::proofs::AnswerLineLemmas::values_equal))]
fn is_same(a: &Answer, b: &Answer) -> bool
    ensures { IsTrue result ↔ (a.now ≡ b.now) }
{
    same_atoms(a.atoms.items(), b.atoms.items()) && same_values(a.values.items(), b.values.items())
}

// Whether the answer is among these. It compares with each of them.
pub(crate) fn is_given(answers: &[Answer], answer: &Answer) -> bool
    ensures { IsTrue result ↔ IsMember answers.now answer.now }
{
    for one in answers {
        if is_same(one, answer) {
            return true;
        }
    }
    false
}

// Whether a cost is smaller than the last one, where there was one.
pub(crate) fn improves(last: Option<i128>, cost: i128) -> bool
    ensures { result ≡ spec.improves last cost }
{
    match last {
        Some(last) => cost < last,
        None => true,
    }
}

// The values of a line.
fn values_of(alloc: Global, values: &[(u32, i32)]) -> Result<Listed<i32>, Memory>
    ensures { IfOk result (λ all. all ≡ map (λ value. value.1) values.now) }
{
    let mut all = Listed::new(alloc);
    for (_, value) in values {
        all.push(*value)?;
    }
    Ok(all)
}

// The answer of a line's atoms and values.
pub(crate) fn answer_of(
    alloc: Global,
    atoms: &[u32],
    values: &[(u32, i32)],
) -> Result<Answer, Memory>
    ensures { IfOk result (λ answer. answer ≡ spec.answer_of atoms.now values.now) }
{
    let values = values_of(alloc, values)?;
    let atoms = Listed::from_slice(alloc, atoms)?;
    Ok(Answer { atoms, values })
}
