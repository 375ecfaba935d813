// The laws of texts.
ghost use Rattle.std.specs.Prelude.{◌≡◌, ◌⊎◌, ℕ, List, IsSome, length};
ghost use Rattle.std.specs.List.{AllByRecursion};
ghost use Rattle.outside_io.specs.Outputs.{Input};
ghost use Rattle.syntax_tree.specs.declared.statement.Program.{Program};
ghost use Rattle.inputs.specs.Sizes.{AreTexts, AreTold, IsTooLarge};
ghost use Rattle.inputs.specs.Texts.{AreRefused, IsProgram};

use symbols::Listed;
use text_laws::every_text_has_an_answer;

/// Where the texts under names are told, they are one list of permitted sizes, or one name is the first whose text is too
/// large, and never both. This call does nothing: its clauses are laws.
pub fn inputs_are_read_in_one_way()
    ensures texts { (files : Input) (names texts others : List (List ℕ)) → AllByRecursion (λ name. IsSome (files.text name)) names
        → AreTexts files names texts → AreTexts files names others → texts ≡ others }
    ensures large { (files : Input) (names : List (List ℕ)) (m n : ℕ) (name other : List ℕ) → AllByRecursion (λ name. IsSome (files.text name)) names
        → IsTooLarge files names m name → IsTooLarge files names n other → name ≡ other }
    ensures apart { (files : Input) (names texts : List (List ℕ)) (taken : ℕ) (name : List ℕ) → AllByRecursion (λ name. IsSome (files.text name)) names
        → AreTexts files names texts → IsTooLarge files names taken name → ⊥ }
    ensures some { (files : Input) (names texts : List (List ℕ)) → AreTold files names texts
        → AreTexts files names texts ⊎ ((taken : ℕ) × (name : List ℕ) × IsTooLarge files names taken name) }
{}

/// Texts have one program or are refused with one line, and never both. This call does nothing: its clauses are laws.
pub fn texts_have_one_program()
    ensures program { (texts : List (List ℕ)) (one other : Program) → IsProgram texts one → IsProgram texts other → one ≡ other }
    ensures line { (names texts : List (List ℕ)) (line other : List ℕ) → AreRefused names texts line → AreRefused names texts other → line ≡ other }
    ensures apart { (names texts : List (List ℕ)) (line : List ℕ) (program : Program) → AreRefused names texts line → IsProgram texts program → ⊥ }
{}

/// Texts of bytes have a program, or are refused with a line, under any names. It is said of the texts that are handed in.
pub fn texts_are_refused_or_not(texts: &[Listed<u8>])
    ensures { (names : List (List ℕ)) → length texts.now ≡ length names
        → ((program : Program) × IsProgram texts.now program) ⊎ ((line : List ℕ) × AreRefused names texts.now line) }
{
    for text in texts {
        every_text_has_an_answer(text.items());
    }
}
