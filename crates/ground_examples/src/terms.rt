// Literals, tuples and sums.
use ground_model::{BodyLit, Linear, Place, Relation};
use std::alloc::Global;
use symbols::{Listed, Memory, Rel};

// The literal of a word.
pub(crate) fn literal(word: &str) -> BodyLit {
    match word.split_once('a') {
        Some((sign, atom)) => BodyLit::Atom(atom.parse().unwrap_or(0), sign.is_empty()),
        None => BodyLit::Atom(0, true),
    }
}

// A relation and a number, as in `<=3`.
pub(crate) fn comparison(word: &str) -> Option<(Rel, i32)> {
    let forms = [
        ("<=", Rel::LessEqual),
        (">=", Rel::GreaterEqual),
        ("!=", Rel::NotEqual),
        ("<", Rel::Less),
        (">", Rel::Greater),
        ("=", Rel::Equal),
    ];
    for (mark, rel) in forms {
        if let Some(number) = word.strip_prefix(mark) {
            return Some((rel, number.parse().unwrap_or(0)));
        }
    }
    None
}

// A constant or a variable with its coefficient.
fn linear(alloc: Global, word: &str) -> Result<Linear, Memory> {
    let mut pairs = Listed::new(alloc);
    let mut constant = 0;
    match word.split_once('*') {
        Some((coefficient, variable)) => {
            let pair = (
                variable.parse().unwrap_or(0),
                coefficient.parse().unwrap_or(0),
            );
            pairs.push(pair)?;
        }
        None => constant = word.parse().unwrap_or(0),
    }
    Ok(Linear { pairs, constant })
}

// A tuple for each word.
pub(crate) fn tuples(alloc: Global, words: &[&str]) -> Result<Listed<Place>, Memory> {
    let mut places = Listed::new(alloc);
    for word in words {
        let (term, duration) = word.split_once('@').unwrap_or((*word, "0"));
        places.push(Place {
            linear: linear(alloc, term)?,
            duration: duration.parse().unwrap_or(0),
            rest: Listed::new(alloc),
        })?;
    }
    Ok(places)
}

// The sum of the words before the last, which compares it.
pub(crate) fn sum(alloc: Global, words: &[&str]) -> Result<Relation, Memory> {
    let (last, terms) = words.split_last().unwrap_or((&"", &[]));
    let (rel, number) = comparison(last).unwrap_or((Rel::Equal, 0));
    let elements = tuples(alloc, terms)?;
    let pairs = Listed::new(alloc);
    let constant = i64::from(number);
    let right = Linear { pairs, constant };
    Ok(Relation {
        elements,
        rel,
        right,
    })
}

// The atoms or the sum of a body.
pub(crate) fn body(alloc: Global, words: &[&str]) -> Result<Listed<BodyLit>, Memory> {
    let mut literals = Listed::new(alloc);
    match words {
        ["sum", terms @ ..] => literals.push(BodyLit::Theory(sum(alloc, terms)?, true))?,
        _ => {
            for word in words {
                literals.push(literal(word))?;
            }
        }
    }
    Ok(literals)
}
