// When a search begins anew: by the sequence of Luby, Sinclair and Zuckerman, 1 1 2 1 1 2 4 .., in units of conflicts.

// Conflicts a unit.
const UNIT: u64 = 64;

/// When a search begins anew. Nothing holds of it.
#[derive(Clone, Copy, Debug, PartialEq, Eq)]
pub struct Restarts {
    // The number of the term that is counted down, and the term, as Knuth computes it.
    number: u64,
    term: u64,
    left: u64,
}

impl Restarts {
    /// Before the first conflict.
    pub fn new() -> Restarts {
        Restarts {
            number: 1,
            term: 1,
            left: UNIT,
        }
    }

    // The next term of the sequence.
    fn go_on(&mut self) {
        if self.number & self.number.wrapping_neg() == self.term {
            self.number = self.number.wrapping_add(1);
            self.term = 1;
        } else {
            self.term = self.term.wrapping_mul(2);
        }
        self.left = self.term.saturating_mul(UNIT);
    }

    /// A conflict was met: whether the search is to begin anew.
    pub fn conflict(&mut self) -> bool {
        if self.left > 1 {
            self.left -= 1;
            return false;
        }
        self.go_on();
        true
    }
}
