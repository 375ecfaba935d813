// Sums and multiples of pairs.
ghost use Rattle.std.specs.Prelude.{◌≡◌, ◌≤◌, ◌*ℤ◌, ◌++◌, map, drop, length, negsuc, false, IfOk, OnOk, IfSome, IfNone, IsTrue};
ghost use Rattle.ground_model.specs.Sound as spec;
ghost use Rattle.program_meaning.specs.Collected.{pairs_added};
ghost use Rattle.program_meaning.specs.Said.{pair_in};
ghost use Rattle.collected_terms.specs.inner.Merging.{AreKnown, all_small};

use crate::numbers::{product, sum};
use std::alloc::Global;
use std::cmp::Ordering;
use symbols::{Listed, Memory, SymbolId, SymbolTable};

// Appends the pairs from this place on.
fn append_from(
    out: &mut Listed<(SymbolId, i64)>,
    pairs: &[(SymbolId, i64)],
    from: usize,
) -> Result<(), Memory>
    requires { from ≤ length pairs.now }
    ensures { OnOk result (out.new ≡ out.old ++ drop from pairs.now) }
{
    for at in from..pairs.len() {
        out.push(pairs[at])?;
    }
    Ok(())
}

// The sum of two lists of pairs, if all its coefficients are small. Linear in both.
pub(crate) fn merged(
    alloc: Global,
    a: &[(SymbolId, i64)],
    b: &[(SymbolId, i64)],
    symbols: &SymbolTable,
) -> Result<Option<Listed<(SymbolId, i64)>>, Memory>
    requires a { AreKnown symbols.now a.now }
    requires b { AreKnown symbols.now b.now }
    ensures some { IfOk result (λ found. IfSome found (λ pairs. map (pair_in symbols.now) pairs ≡ pairs_added (map (pair_in symbols.now) a.now) (map (pair_in symbols.now) b.now))) }
    ensures known { IfOk result (λ found. IfSome found (λ pairs. AreKnown symbols.now pairs)) }
    ensures none { IfOk result (λ found. IfNone found (all_small (pairs_added (map (pair_in symbols.now) a.now) (map (pair_in symbols.now) b.now)) ≡ false)) }
{
    let mut out = Listed::new(alloc);
    let mut at = 0;
    let mut to = 0;
    'merge: loop {
        if at >= a.len() {
            append_from(&mut out, b, to)?;
            return Ok(Some(out));
        }
        if to >= b.len() {
            append_from(&mut out, a, at)?;
            return Ok(Some(out));
        }
        let first = a[at];
        let second = b[to];
        match symbols.compare(first.0, second.0) {
            Ordering::Less => {
                out.push(first)?;
                at += 1;
            }
            Ordering::Greater => {
                out.push(second)?;
                to += 1;
            }
            Ordering::Equal => match sum(first.1, second.1) {
                None => return Ok(None),
                Some(total) => {
                    out.push((first.0, total))?;
                    at += 1;
                    to += 1;
                }
            },
        }
    }
}

// So many times the pairs, if all coefficients stay small.
pub(crate) fn multiplied(
    alloc: Global,
    pairs: &[(SymbolId, i64)],
    by: i64,
    symbols: &SymbolTable,
) -> Result<Option<Listed<(SymbolId, i64)>>, Memory>
    requires pairs { AreKnown symbols.now pairs.now }
    requires by { IsTrue (spec.is_small by) }
    ensures some { IfOk result (λ found. IfSome found (λ made. map (pair_in symbols.now) made ≡ map (λ pair. (pair.0, by *ℤ pair.1)) (map (pair_in symbols.now) pairs.now))) }
    ensures known { IfOk result (λ found. IfSome found (λ made. AreKnown symbols.now made)) }
    ensures none { IfOk result (λ found. IfNone found (all_small (map (λ pair. (pair.0, by *ℤ pair.1)) (map (pair_in symbols.now) pairs.now)) ≡ false)) }
{
    let _ = symbols;
    let mut out = Listed::new(alloc);
    for pair in pairs {
        match product(by, pair.1) {
            None => return Ok(None),
            Some(coefficient) => out.push((pair.0, coefficient))?,
        }
    }
    Ok(Some(out))
}

// The pairs with the other sign.
pub(crate) fn negated(
    alloc: Global,
    pairs: &[(SymbolId, i64)],
    symbols: &SymbolTable,
) -> Result<Listed<(SymbolId, i64)>, Memory>
    requires pairs { AreKnown symbols.now pairs.now }
    ensures found { IfOk result (λ made. map (pair_in symbols.now) made ≡ map (λ pair. (pair.0, negsuc 0 *ℤ pair.1)) (map (pair_in symbols.now) pairs.now)) }
    ensures known { IfOk result (AreKnown symbols.now) }
{
    let _ = symbols;
    let mut out = Listed::new(alloc);
    for pair in pairs {
        out.push((pair.0, -pair.1))?;
    }
    Ok(out)
}
