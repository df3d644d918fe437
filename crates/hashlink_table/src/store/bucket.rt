ghost use Rattle.std.specs.Prelude.{◌≡◌, ◌-◌, ◌*◌, ◌^◌, ◌%◌, ◌/◌, ◌<◌, ◌≤◌, max};
ghost use Rattle.std.specs.Int.{IsPowerOfTwo};
ghost use Rattle.hashlink_table.specs.Stored.{tag_of};

use super::lanes::LANES;

/// Returns the bucket to which a hash belongs, if there are `buckets` buckets.
#[inline]
pub fn bucket_of(hash: u32, buckets: usize) -> usize
    requires { IsPowerOfTwo buckets }
    ensures { result ≡ hash % buckets }
{
    (hash as usize) & (buckets - 1)
}

/// Returns the tag of a hash: the four bits that select the hash's bucket in its group, and four on which the
/// bucket does not depend.
#[inline]
pub fn tag(hash: u32) -> u8
    ensures { result ≡ tag_of hash }
{
    (hash % 16 * 16 + hash / (1 << 28)) as u8
}

/// Returns the first slot of this slot's group.
#[inline]
pub fn group_of(at: usize) -> usize
    ensures { result ≡ at - at % LANES }
{
    at - at % LANES
}

/// Returns the first slot of the group to which a hash belongs.
#[inline]
pub fn base_of(hash: u32, buckets: usize) -> usize
    requires { IsPowerOfTwo buckets }
    ensures { result ≡ hash % buckets - hash % buckets % LANES }
{
    group_of(bucket_of(hash, buckets))
}

/// Returns the number of slots of a table with this room: the least power of two of which the room is at most
/// seven eighths. They fill whole groups.
pub fn slots_for(room: usize) -> usize
    requires { room ≤ 2 ^ 62 }
    ensures power { IsPowerOfTwo result }
    ensures enough { 8 * room ≤ 7 * result }
    ensures grouped { result % LANES ≡ 0 }
    ensures bounded { result ≤ 4 * max 8 room }
    ensures least { LANES < result → 7 * (result / 2) < 8 * room }
{
    (room + (room + 6) / 7).max(LANES).next_power_of_two()
}
