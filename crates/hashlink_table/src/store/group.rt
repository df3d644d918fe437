//! What is stored for a group of sixteen slots.
ghost use Rattle.std.specs.Prelude.{◌≡◌, ◌≢◌, ℕ, ◌<◌, cond, false, map, replicate, slice_index_or, true};
ghost use Rattle.std.specs.{Int.{bit_at}, Prelude.{slice_set}, Simd.Lanes.{mask_l}};
ghost use Rattle.hashlink_table.specs.{Records.{free_mark, has_own, is_free, is_taken}, Stored.{no_guests}};

use super::head::{Head, NO_GUESTS};
use super::lanes::LANES;
use super::mark::Mark;
use std::marker::Model;
use std::simd::prelude::*;

/// A group: 32 bytes, of which a search that ends in the group reads one or two lines of the cache.
#[derive(Drop)]
pub struct Group {
    tags: [u8; 16],
    // The slots with nodes of the group, and those with guests, one bit for each.
    owns: u16,
    guests: u16,
    first: u32,
    mask: u64,
}

impl Model for Group {
    ghost use Rattle.hashlink_table.specs.Records.{Record, record_of};

    ghost Value = { Record };

    ghost view = { λ g. record_of g.tags g.owns g.guests g.first g.mask };
}

// Returns bits of which one is set or cleared.
#[inline]
fn with_bit(bits: u16, at: usize, on: bool) -> u16
    requires { at < 16 }
    ensures same { bit_at result at ≡ cond on 1 0 }
    ensures others { (i : ℕ) → i < 16 → i ≢ at → bit_at result i ≡ bit_at bits i }
{
    if on {
        bits | (1 << at)
    } else {
        bits & !(1 << at)
    }
}

impl Group {
    /// Creates a group without nodes.
    #[inline]
    pub fn new() -> Self
        ensures { result ≡ record { marks = replicate 16 free_mark; head = no_guests } }
    {
        Group {
            tags: [0; LANES],
            owns: 0,
            guests: 0,
            first: NO_GUESTS.first,
            mask: NO_GUESTS.mask,
        }
    }

    /// Returns the mark of a slot.
    #[inline]
    pub fn mark(&self, lane: usize) -> Mark
        requires { lane < LANES }
        ensures { result ≡ slice_index_or self.now.marks lane free_mark }
    {
        Mark {
            tag: self.tags[lane],
            own: (self.owns >> lane) & 1 == 1,
            guest: (self.guests >> lane) & 1 == 1,
        }
    }

    /// Sets the mark of a slot to one with a guest.
    #[inline]
    pub fn set_guest(&mut self, lane: usize, tag: u8)
        requires { lane < LANES }
        ensures { self.new ≡ record self.old {
          marks = slice_set self.old.marks lane
              (record { tag = tag; own = false; guest = true });
        } }
    {
        self.tags[lane] = tag;
        self.owns = with_bit(self.owns, lane, false);
        self.guests = with_bit(self.guests, lane, true);
    }

    /// Sets the mark of a slot to one without a node. The tag need not be cleared.
    #[inline]
    pub fn set_free(&mut self, lane: usize)
        requires { lane < LANES }
        ensures { self.new ≡ record self.old {
          marks = slice_set self.old.marks lane
              (record (slice_index_or self.old.marks lane free_mark) { own = false; guest = false });
        } }
    {
        self.owns = with_bit(self.owns, lane, false);
        self.guests = with_bit(self.guests, lane, false);
    }

    /// Sets the mark of a slot to one with a node of the group. Whether it had a guest need not be cleared.
    #[inline]
    pub fn set_own(&mut self, lane: usize, tag: u8)
        requires { lane < LANES }
        ensures { self.new ≡ record self.old {
          marks = slice_set self.old.marks lane
              (record (slice_index_or self.old.marks lane free_mark) { tag = tag; own = true });
        } }
    {
        self.tags[lane] = tag;
        self.owns = with_bit(self.owns, lane, true);
    }

    /// Returns which slots have a node of the group with this tag, one bit for each.
    #[inline]
    pub fn with_tag(&self, tag: u8) -> u64
        ensures { result ≡ mask_l (map (has_own tag) self.now.marks) }
    {
        u8x16::from_array(self.tags)
            .simd_eq(u8x16::splat(tag))
            .to_bitmask()
            & u64::from(self.owns)
    }

    /// Returns which slots have no node, one bit for each.
    #[inline]
    pub fn free(&self) -> u64
        ensures { result ≡ mask_l (map is_free self.now.marks) }
    {
        u64::from(!(self.owns | self.guests))
    }

    /// Returns which slots have a node, one bit for each.
    #[inline]
    pub fn taken(&self) -> u64
        ensures { result ≡ mask_l (map is_taken self.now.marks) }
    {
        u64::from(self.owns | self.guests)
    }

    /// Returns the chain of the group's guests.
    #[inline]
    pub fn head(&self) -> Head
        ensures { result ≡ self.now.head }
    {
        Head {
            first: self.first,
            mask: self.mask,
        }
    }

    /// Sets the chain of the group's guests.
    #[inline]
    pub fn set_head(&mut self, head: Head)
        ensures { self.new ≡ record self.old { head = head } }
    {
        self.first = head.first;
        self.mask = head.mask;
    }
}
