//! Texts, and the answers that they can have. Each function has an empty body: its contract is the theorem.
ghost use Rattle.std.specs.Prelude.{◌≡◌, ◌⊎◌, ℕ, List, [], codes};
ghost use Rattle.hashlink_text.specs.Text.{IsTranscript};

/// These texts have these answers and no others. There is one answer if the map has no choice. There are two
/// if an insert needs a new node: one for its success, and one if memory runs out.
pub fn answers_to_texts()
    ensures no_line { (text : List ℕ) → IsTranscript [] text → text ≡ [] }
    ensures mode_alone { (text : List ℕ) → IsTranscript (codes "map") text → text ≡ [] }
    ensures bad_mode { (text : List ℕ) → IsTranscript (codes "map \niter\n") text → text ≡ codes "bad\n" }
    ensures bad_lines { (text : List ℕ) → IsTranscript (codes "map\n\nlens") text → text
        ≡ codes "bad\nbad\n" }
    ensures reads { (text : List ℕ) → IsTranscript (codes "map\nget 1\niter\n") text → text
        ≡ codes "-\nempty\n" }
    ensures insert { (text : List ℕ) → IsTranscript (codes "map\ninsert 1 10\nget 1\niter\n") text
        → (text ≡ codes "-\n10\n1:10\n") ⊎ (text ≡ codes "memory\n-\nempty\n") }
{}

/// An empty map has nothing to show, to move or to remove at either end or at any entry, and its shrink does
/// not run out of memory.
pub fn answers_of_an_empty_map()
    ensures ends { (text : List ℕ)
        → IsTranscript (codes "map\nlen\nfront\npop_back\nto_front 1\nclear\nshrink\niter\n") text
        → text ≡ codes "0\n-\n-\n-\nok\nok\nempty\n" }
    ensures entries { (text : List ℕ)
        → IsTranscript
        (codes "map\nentry 1 get\nentry 1 replace_entry 5\nentry 1 to_back\nentry 1 remove\niter\n") text
        → text ≡ codes "-\n-\n-\n-\nempty\n" }
{}

/// A text with an insert of each kind, a read, a removal and the list, and its answer if no insert runs out
/// of memory.
#[tactic(auto, using(crate::proofs::Worked::worked_answer))]
pub fn a_worked_text()
    ensures { IsTranscript (codes "map\ninsert 1 10\ninsert 2 20\ninsert 1 11\nget 1\nremove 2\niter\n")
        (codes "-\n-\n10\n11\n20\n1:11\n") }
{}

/// A text with entries: one is occupied, moves to the back and keeps its value; one is vacant and is
/// inserted; and one is replaced at its place.
#[tactic(auto, using(crate::proofs::Worked::worked_entries))]
pub fn a_worked_text_of_entries()
    ensures { IsTranscript (codes
        "map\ninsert 1 10\nentry 1 or_insert 5\nentry 2 or_insert 21\nentry 1 replace_entry 12\niter\n")
        (codes "-\n10\n21\n1:10\n1:12 2:21\n") }
{}
