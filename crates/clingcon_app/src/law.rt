// The law of the statuses.
ghost use Rattle.std.specs.Prelude.{◌≡◌, ◌⊎◌, ℕ, List, IsSome, String};
ghost use Rattle.std.specs.Global.{Global};
ghost use Rattle.std.specs.List.{AllByRecursion};
ghost use Rattle.outside_io.specs.Outputs.{Input};
ghost use Rattle.clingcon_app.specs.Words.{names_of};
ghost use Rattle.clingcon_app.specs.Outcome.{IsAccepted, IsPrinted, IsRefusedWith, IsRefusing};
ghost use Rattle.clingcon_app.specs.Texts.{AreTold};

use symbols::Listed;
use text_laws::every_text_has_an_answer;

/// Where the texts of all inputs are told, words have at most one status of 10, 65, 70 and 71: its cause, as `run`
/// names it, excludes the cause of each other. A refusal prints one line.
pub fn one_outcome()
    ensures status { (files : Input) (words : List (String Global)) → AllByRecursion (λ name. IsSome (files.text name)) (names_of words)
        → (s t m n : ℕ) (p q : List ℕ) → IsPrinted s files m words p → IsPrinted t files n words q → s ≡ t }
    ensures refusal { (files : Input) (words : List (String Global)) → AllByRecursion (λ name. IsSome (files.text name)) (names_of words)
        → (s t m n : ℕ) (p q : List ℕ) → IsPrinted s files m words p → IsPrinted t files n words q → IsRefusing s → p ≡ q }
{}

/// Words and texts of bytes have an outcome, whatever tells them: they are accepted, or refused with a line at the status
/// of its cause; with `one_outcome` just one, where the texts are told. It is said of the words and the texts that are
/// handed in.
pub fn some_outcome(words: &[String], texts: &[Listed<u8>])
    ensures { (files : Input) → AreTold files (names_of words.now) texts.now → IsAccepted files words.now ⊎ IsRefusedWith files words.now }
{
    for text in texts {
        every_text_has_an_answer(text.items());
    }
}
