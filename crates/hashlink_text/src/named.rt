ghost use Rattle.std.specs.Prelude.{◌≡◌};
ghost use Rattle.hashlink_text.specs.{Cuts.parts_left, Lines.words_of, Reading.{read_in, read_words}};
ghost use Rattle.hashlink_text.specs.Spelling.{Says};
ghost use Rattle.hashlink_text.specs.Tables.{tokens};

use crate::numbers::{Numbers, read_numbers};
use crate::words::Words;

/// The meaning of a line that is a name and at most three numbers.
pub trait Named: Copy {
    ghost use Rattle.std.specs.{Prelude.{ℕ, List, [], ◌∷◌, Option}, Map.lookup, Str.bytes_eq};
    ghost use Rattle.hashlink_text.specs.{Reading.{IsNamed, by_name}, Spelling.Word, Tables.list_of};

    // `spelled` has the words of a meaning, and `among` all meanings before the given numbers.
    ghost spelled: { Self → Option (List Word) };

    ghost among: { List ℕ → List Self };

    ghost named: { IsNamed spelled among };

    /// Returns what the name means before the numbers.
    fn meaning(name: &[u8], numbers: Numbers) -> Option<Self>
        ensures { result ≡ lookup (bytes_eq name.now) (by_name spelled among (list_of numbers)) };

    ghost three_at_most: { (k v w n : ℕ) (ns : List ℕ) → among (k ∷ v ∷ w ∷ n ∷ ns) ≡ [] };
}

/// Returns the meaning whose spelling the text is, or `None` if the text is bad. It reads the text once.
#[tactic(auto, using(crate::proofs::Grammar::says_named))]
pub fn meaning_of<L: Named>(text: &[u8]) -> Option<L>
    ensures { Says L.spelled text.now result }
{
    read_meaning(text)
}

// Returns what is read from the words of the text.
fn read_meaning<L: Named>(text: &[u8]) -> Option<L>
    ensures { result ≡ read_words L.spelled L.among (tokens (words_of text.now)) }
{
    let mut words = Words::new(text);
    let name = words.next()?;
    meaning_of_name(name, words)
}

// Returns the meaning of the name and the words after it.
fn meaning_of_name<L: Named>(name: &[u8], words: Words<'_>) -> Option<L>
    ensures { result ≡ read_in L.spelled L.among name.now (tokens (parts_left 32 words.entry.rest)) }
{
    let numbers = read_numbers(words)?;
    L::meaning(name, numbers)
}
