//! Equality of texts, for lookups by a text.
ghost use Rattle.std.specs.{Prelude.{◌≡◌, ◌*◌, ◌≤◌, length}, Str.bytes_eq};
ghost use Rattle.hashlink_core.specs.declared.texts.TheConstants.{WINDOW};

// The number of bytes that one instruction compares.
const WINDOW: usize = 16;

/// Returns whether two texts are equal, as `==` does. Texts of 16 to 32 bytes take two comparisons.
#[inline]
pub(crate) fn texts_eq(left: &str, right: &str) -> bool
    ensures { result ≡ bytes_eq left.now right.now }
{
    let length = left.len();
    if length != right.len() {
        return false;
    }
    if length < WINDOW || 2 * WINDOW < length {
        return left == right;
    }
    ends_eq(left.as_bytes(), right.as_bytes())
}

/// Returns whether two lists of the same length are equal, by their first and their last bytes. The two
/// windows cover the lists, and may overlap.
#[inline]
fn ends_eq(left: &[u8], right: &[u8]) -> bool
    requires same_length { length left.now ≡ length right.now }
    requires enough { WINDOW ≤ length left.now }
    requires covered { length left.now ≤ 2 * WINDOW }
    ensures { result ≡ bytes_eq left.now right.now }
{
    left.first_chunk::<WINDOW>() == right.first_chunk::<WINDOW>()
        && left.last_chunk::<WINDOW>() == right.last_chunk::<WINDOW>()
}
