// What a derivation claims.

/// What an accepted derivation claims of its program's constraint stable models.
#[derive(Clone, Copy, Debug, PartialEq, Eq)]
pub enum Claim {
    /// There is none.
    Nothing,
    /// There are so many, those of the `m` lines, and no other.
    All(u64),
    /// The last `o` line has one of this objective, and none has a smaller one.
    Best(i128),
}
