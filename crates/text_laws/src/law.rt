// Laws of whole texts.
ghost use Rattle.std.specs.Prelude.{◌≡◌, List, ℕ};
ghost use Rattle.std.specs.List.{AllByRecursion};
ghost use Rattle.syntax_tree.specs.declared.statement.Statement.{Statement};
ghost use Rattle.asp_parser.specs.declared.fault.TextFault.{TextFault};
ghost use Rattle.asp_parser.specs.Parsed.{FoundText, IsTextFault};
ghost use Rattle.text_laws.specs.ReadsBack.{ReadsBack};
ghost use Rattle.text_laws.specs.Answered.{HasAnswer};

use lexer::first_fault;

/// Each statement that a text parses to is printed as a text that parses to the same statement, where it
/// stands aside.
pub fn printed_statements_read_back()
    ensures { (text : List ℕ) (statements : List Statement) → FoundText text statements → AllByRecursion ReadsBack statements }
{}

/// A text parses to at most one list of statements, has at most one first fault, and never both.
pub fn texts_are_read_one_way()
    ensures statements { (text : List ℕ) (one other : List Statement) → FoundText text one → FoundText text other → one ≡ other }
    ensures fault { (text : List ℕ) (one other : TextFault) → IsTextFault text one → IsTextFault text other → one ≡ other }
    ensures apart { (text : List ℕ) (statements : List Statement) (fault : TextFault) → FoundText text statements → IsTextFault text fault → ⊥ }
{}

/// Every text of bytes parses to statements or has a first fault, so that with `texts_are_read_one_way` it has just one
/// answer. It is said of each text that is handed in.
pub fn every_text_has_an_answer(text: &[u8])
    ensures { HasAnswer text.now }
{
    let _ = first_fault(text);
}
