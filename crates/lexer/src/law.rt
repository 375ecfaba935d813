// What holds of every text, whoever reads it.
ghost use Rattle.std.specs.Prelude.{◌≡◌, ℕ, List};
ghost use Rattle.lexer.specs.declared.token.Token.{Token};
ghost use Rattle.lexer.specs.declared.token.LexFault.{LexFault};
ghost use Rattle.lexer.specs.Parts.{IsTokenisation};
ghost use Rattle.lexer.specs.Faults.{IsFirstFault};

/// A text has at most one tokenisation and at most one first fault, and never both. So `tokens` answers
/// with the one tokenisation exactly where there is no fault, and else with the first fault.
pub fn one_answer()
    ensures tokens { (text : List ℕ) (tokens others : List Token) → IsTokenisation text tokens → IsTokenisation text others → tokens ≡ others }
    ensures fault { (text : List ℕ) (fault other : LexFault) → IsFirstFault text fault → IsFirstFault text other → fault ≡ other }
    ensures apart { (text : List ℕ) (tokens : List Token) (fault : LexFault) → IsTokenisation text tokens → IsFirstFault text fault → ⊥ }
{}
