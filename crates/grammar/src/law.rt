// Laws of the grammar.
ghost use Rattle.std.specs.Prelude.{◌≡◌, ℕ, List};
ghost use Rattle.std.specs.List.{AllByRecursion};
ghost use Rattle.lexer.specs.declared.token.Token.{Token};
ghost use Rattle.lexer.specs.Parts.{IsTokenisation};
ghost use Rattle.grammar.specs.Word.{Word, Ends, words_of};
ghost use Rattle.grammar.specs.Written.{AreWritten};
ghost use Rattle.grammar.specs.Term.{TermAt, UnaryAt, operand_words, term_words, unary_words, term_goes_on, unary_goes_on, operand_goes_on};
ghost use Rattle.grammar.specs.Theory.{TheoryAt, theory_words, theory_goes_on};
ghost use Rattle.grammar.specs.Statement.{StatementAt, words_of_statement, text_words};
ghost use Rattle.grammar.specs.Rules.{KeepsRules};

/// Words are those of one term at most, which ends where no word goes on with it.
pub fn one_term()
    ensures { (n : ℕ) (t u : TermAt n) (behind beyond : List Word) → term_words (unary_words (operand_words n)) t behind ≡ term_words (unary_words (operand_words n)) u beyond
        → Ends (term_goes_on (unary_goes_on (operand_goes_on n)) t) behind → Ends (term_goes_on (unary_goes_on (operand_goes_on n)) u) beyond → (t ≡ u) × (behind ≡ beyond) }
{}

/// Words are those of one theory atom at most, which ends where no word goes on with it.
pub fn one_theory()
    ensures { (n : ℕ) (a b : TheoryAt n) (behind beyond : List Word) → theory_words (operand_words n) a behind ≡ theory_words (operand_words n) b beyond
        → Ends (theory_goes_on (operand_goes_on n) a) behind → Ends (theory_goes_on (operand_goes_on n) b) beyond → (a ≡ b) × (behind ≡ beyond) }
{}

/// Words are those of one statement at most, which ends by its dot, whatever stands behind it.
pub fn one_statement()
    ensures { (n : ℕ) (s t : StatementAt n) (behind beyond : List Word) → words_of_statement n s behind ≡ words_of_statement n t beyond → (s ≡ t) × (behind ≡ beyond) }
{}

/// Words are those of one text at most: of one list of statements.
pub fn one_text()
    ensures { (n : ℕ) (ss ts : List (StatementAt n)) → text_words n ss ≡ text_words n ts → ss ≡ ts }
{}

/// The words of a text have names that are not empty and UTF-8, and strings that are UTF-8.
pub fn words_are_written()
    ensures { (text : List ℕ) (tokens : List Token) → IsTokenisation text tokens → AreWritten (words_of text tokens) }
{}

/// Each statement of a text has a tree that keeps the rules on statements, whatever the numbers of its
/// variables are, and its variables have names that are not empty and UTF-8.
pub fn statements_keep_rules()
    ensures { (text : List ℕ) (tokens : List Token) (n : ℕ) (statements : List (StatementAt n)) → IsTokenisation text tokens → words_of text tokens ≡ text_words n statements
        → AllByRecursion (KeepsRules n) statements }
{}
