// What follows from the definitions. Each function's contract is a law, and its body is empty.
ghost use Rattle.std.specs.Prelude.{◌≡◌};
ghost use Rattle.derivation.specs.Spelling.{spelling, IsLine};
ghost use Rattle.derivation.specs.Whole.{CutLaw, NogoodLaw, OneCutLaw, OneDerivationLaw, OneLineLaw};
ghost use Rattle.derivation.specs.declared.line.Line.{Line as LineValue};

/// Two lines of one spelling are one line.
pub fn spellings_are_apart()
    ensures { (a b : LineValue) → IsLine a → IsLine b → spelling a ≡ spelling b → a ≡ b }
{}

/// Bytes are cut into lines in one way, and are at most one derivation: no line is spelled with a line feed.
pub fn derivations_are_read_in_one_way()
    ensures one_line { OneLineLaw }
    ensures cut { CutLaw }
    ensures one_cut { OneCutLaw }
    ensures one { OneDerivationLaw }
{}

/// The literals of a line of the grammar are a nogood: sorted, and of two bounds on one side of a variable there is one alone.
pub fn lines_end_in_nogoods()
    ensures { NogoodLaw }
{}
