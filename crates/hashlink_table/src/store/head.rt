//! The chains of guests.
ghost use Rattle.std.specs.Prelude.{◌≡◌, ◌≢◌, ◌<◌, ◌≤◌, ◌↔◌, IsTrue};
ghost use Rattle.std.specs.Int.{bit_at};
ghost use Rattle.hashlink_table.specs.Stored.{mask_bit_of, with_guest_in};

use super::bucket::tag;
use super::cell::END;

/// The chain of a group's guests.
#[derive(Clone, Copy)]
pub struct Head {
    // The slot of the first guest, or `END`.
    pub first: u32,
    // Each guest sets one bit. Bits of guests that are gone may stay until the chain is empty.
    pub mask: u64,
}

/// The chain of a group without guests.
pub const NO_GUESTS: Head = Head {
    first: END as u32,
    mask: 0,
};

// Returns the bit that a guest of this hash sets: the six lowest bits of its tag.
#[inline]
fn mask_bit(hash: u32) -> u32
    ensures value { result ≡ mask_bit_of hash }
    ensures small { result < 64 }
{
    u32::from(tag(hash)) % 64
}

impl Head {
    /// Returns whether a guest of this hash may be on the chain.
    #[inline]
    pub fn may_have(self, hash: u32) -> bool
        ensures { IsTrue result ↔ (bit_at self.mask (mask_bit_of hash) ≡ 1) }
    {
        (self.mask >> mask_bit(hash)) & 1 == 1
    }

    /// Returns the chain with a guest of this hash, in the slot `at`, as the first.
    #[inline]
    pub fn with(self, hash: u32, at: usize) -> Self
        requires { at ≤ END }
        ensures { result ≡ with_guest_in self hash at }
    {
        Head {
            first: at as u32,
            mask: self.mask | (1 << mask_bit(hash)),
        }
    }

    /// Returns the chain from another first guest on. A chain without guests has an empty mask.
    #[inline]
    pub fn from(self, first: usize) -> Self
        requires { first ≤ END }
        ensures first { result.first ≡ first }
        ensures mask { first ≢ END → result.mask ≡ self.mask }
        ensures empty { first ≡ END → result.mask ≡ 0 }
    {
        if first == END {
            NO_GUESTS
        } else {
            Head {
                first: first as u32,
                mask: self.mask,
            }
        }
    }
}
