//! Theorems on the lines of the text form. Each function has an empty body: its contract is the theorem.
ghost use Rattle.std.specs.Prelude.{◌≡◌, ℕ, ◌++◌, List, [], ◌∷◌, Option, Some, None, codes};
ghost use Rattle.hashlink_run.specs.declared.commands.CursorStep.TheVariants.{Next, Prev, Current, PeekNext};
ghost use Rattle.hashlink_run.specs.declared.cache_commands.PairCommand.{PairCommand};
ghost use Rattle.hashlink_run.specs.declared.commands.CursorStep.TheVariants.{PeekPrev, Before, After};
ghost use Rattle.hashlink_text.specs.Spelling.{Said, Cursor, Says, Spells, spelled, cache_spelled};
ghost use Rattle.hashlink_text.specs.{Lines.lines_of, declared.cache_line.CacheLine.CacheLine};
ghost use Rattle.hashlink_text.specs.Spelling.{pair_spelled, weighted_spelled, mode_spelled};
ghost use Rattle.hashlink_text.specs.declared.{modes.Mode.Mode, weighted_line.WeightedLine.WeightedLine};

/// No two lines to a container share a spelling, nor do two first lines.
pub fn no_two_lines_share_a_spelling()
    ensures map { (a b : Said) (text : List ℕ) → Spells spelled a text → Spells spelled b text → a ≡ b }
    ensures cache { (a b : CacheLine) (text : List ℕ)
        → Spells cache_spelled a text → Spells cache_spelled b text → a ≡ b }
    ensures pair { (a b : PairCommand ℕ ℕ) (text : List ℕ)
        → Spells pair_spelled a text → Spells pair_spelled b text → a ≡ b }
    ensures weighted { (a b : WeightedLine) (text : List ℕ)
        → Spells weighted_spelled a text → Spells weighted_spelled b text → a ≡ b }
    ensures mode { (a b : Mode) (text : List ℕ)
        → Spells mode_spelled a text → Spells mode_spelled b text → a ≡ b }
{}

/// A line ends at a byte 10. The bytes after the last one are a line if there are any. A byte 13 is like any
/// other.
pub fn lines_of_texts()
    ensures empty { lines_of [] ≡ [] }
    ensures lone_end { lines_of (codes "\n") ≡ [] ∷ [] }
    ensures last { lines_of (codes "map\n\niter") ≡ codes "map" ∷ [] ∷ codes "iter" ∷ [] }
    ensures ended { lines_of (codes "map\n\niter\n") ≡ codes "map" ∷ [] ∷ codes "iter" ∷ [] }
    ensures carriage_return { lines_of (codes "map" ++ 13 ∷ 10 ∷ []) ≡ (codes "map" ++ 13 ∷ []) ∷ [] }
{}

/// A line of a cursor spells its steps in order, and a name that needs numbers takes the words that follow
/// it.
#[tactic(auto, using(crate::proofs::Readers::says_so))]
pub fn lines_of_cursors()
    ensures moves { Says spelled (codes "cursor next prev cur")
        (Some (Cursor (Next ∷ Prev ∷ Current ∷ []))) }
    ensures peeks { Says spelled (codes "cursor peek_next peek_prev")
        (Some (Cursor (PeekNext ∷ PeekPrev ∷ []))) }
    ensures inserts { Says spelled (codes "cursor before 1 10 cur after 2 20")
        (Some (Cursor (Before 1 10 ∷ Current ∷ After 2 20 ∷ []))) }
{}

/// Lines without a meaning.
pub fn bad_lines()
    ensures empty { Says spelled [] None }
    ensures missing_word { Says spelled (codes "insert 1") None }
    ensures word_too_many { Says spelled (codes "get 1 1") None }
    ensures number_too_many { Says spelled (codes "insert 1 2 3") None }
    ensures number_after_a_word_alone { Says spelled (codes "len 0") None }
    ensures leading_zero { Says spelled (codes "insert 01 5") None }
    ensures leading_space { Says spelled (codes " get 1") None }
    ensures trailing_space { Says spelled (codes "iter ") None }
    ensures two_spaces { Says spelled (codes "insert 1  2") None }
    ensures too_large { Says spelled (codes "insert 18446744073709551616 1") None }
    ensures upper_case { Says spelled (codes "Iter") None }
    ensures carriage_return { Says spelled (codes "iter" ++ 13 ∷ []) None }
    ensures no_text { Says spelled (codes "get " ++ 255 ∷ []) None }
    ensures entry_alone { Says spelled (codes "entry") None }
    ensures entry_without_a_step { Says spelled (codes "entry 1") None }
    ensures entry_of_no_number { Says spelled (codes "entry x get") None }
    ensures unknown_step { Says spelled (codes "entry 1 foo") None }
    ensures step_without_its_value { Says spelled (codes "entry 1 insert") None }
    ensures step_with_a_value_too_many { Says spelled (codes "entry 1 get 2") None }
    ensures step_with_two_values { Says spelled (codes "entry 1 insert 2 3") None }
    ensures step_with_leading_zero { Says spelled (codes "entry 1 insert 02") None }
    ensures key_alone_replaced { Says spelled (codes "entry 1 replace_key") None }
    ensures pair_taken_out { Says spelled (codes "entry 1 remove_entry") None }
    ensures step_before_its_key { Says spelled (codes "entry get 1") None }
    ensures cursor_without_a_step { Says spelled (codes "cursor") None }
    ensures unknown_cursor_step { Says spelled (codes "cursor next foo") None }
    ensures cursor_step_with_a_number_too_many { Says spelled (codes "cursor next 1") None }
    ensures cursor_step_without_its_value { Says spelled (codes "cursor before 1") None }
    ensures no_step_after_a_pair { Says spelled (codes "cursor before 1 10 foo") None }
    ensures number_after_a_pair { Says spelled (codes "cursor after 1 10 2") None }
    ensures cursor_key_with_leading_zero { Says spelled (codes "cursor before 01 10") None }
    ensures cursor_of_two_spaces { Says spelled (codes "cursor next  next") None }
    ensures cursor_of_a_trailing_space { Says spelled (codes "cursor next ") None }
{}
