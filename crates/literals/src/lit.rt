// Literals: the opposite of one, and which follows from which.
ghost use Rattle.std.specs.Prelude.{◌≡◌, false, IsTrue};
ghost use Rattle.literals.specs.Truths.{Truths, lit_true};
ghost use Rattle.literals.specs.Lits.{IsLit, complement_of, implies_lit};

/// What a literal says. The first number names an atom, a body, a constraint or a variable, counted
/// from 1; a `bool` says whether that one is true.
#[derive(Clone, Copy, Debug, PartialEq, Eq, Hash)]
pub enum Lit {
    Atom(u32, bool),
    Body(u32, bool),
    Constraint(u32, bool),
    /// The variable is at most the number, which lies from -2^30 to 2^30-1.
    AtMost(u32, i32),
    /// The variable is at least the number, which lies from -2^30+1 to 2^30.
    AtLeast(u32, i32),
}

impl Default for Lit {
    fn default() -> Lit {
        Lit::Atom(1, true)
    }
}

/// The opposite: true in exactly the worlds where the literal is false.
#[inline]
pub fn complement(lit: Lit) -> Lit
    requires { IsLit lit }
    ensures value { result ≡ complement_of lit }
    ensures literal { IsLit result }
    ensures opposite { (t : Truths) → IsTrue (lit_true t result) → IsTrue (lit_true t lit) → ⊥ }
    ensures either { (t : Truths) → lit_true t lit ≡ false → IsTrue (lit_true t result) }
{
    match lit {
        Lit::Atom(n, sign) => Lit::Atom(n, !sign),
        Lit::Body(n, sign) => Lit::Body(n, !sign),
        Lit::Constraint(n, sign) => Lit::Constraint(n, !sign),
        Lit::AtMost(x, k) => Lit::AtLeast(x, k + 1),
        Lit::AtLeast(x, k) => Lit::AtMost(x, k - 1),
    }
}

/// Whether `b` is `a`, or a weaker bound on the same side of the same variable.
#[inline]
pub fn implies(a: Lit, b: Lit) -> bool
    ensures value { result ≡ implies_lit a b }
    ensures sound { IsTrue result → (t : Truths) → IsTrue (lit_true t a) → IsTrue (lit_true t b) }
{
    match (a, b) {
        (Lit::Atom(n, s), Lit::Atom(m, r)) => n == m && s == r,
        (Lit::Body(n, s), Lit::Body(m, r)) => n == m && s == r,
        (Lit::Constraint(n, s), Lit::Constraint(m, r)) => n == m && s == r,
        (Lit::AtMost(x, k), Lit::AtMost(y, j)) => x == y && k <= j,
        (Lit::AtLeast(x, k), Lit::AtLeast(y, j)) => x == y && j <= k,
        _ => false,
    }
}
