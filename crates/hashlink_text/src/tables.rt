ghost use Rattle.std.specs.{Prelude.◌≡◌, Map.lookup, Str.bytes_eq};
ghost use Rattle.hashlink_text.specs.Cuts.{words_shown};

// Returns what the table has for the name.
pub(crate) fn said_by<T: Copy>(name: &[u8], table: &[(&[u8], T)]) -> Option<T>
    ensures { result ≡ lookup (bytes_eq name.now) (words_shown table.now) }
{
    for (word, meaning) in table {
        if name == *word {
            return Some(*meaning);
        }
    }
    None
}
