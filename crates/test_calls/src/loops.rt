//! Loops that write each value of a map.
ghost use Rattle.std.specs.Prelude.{◌≡◌, map};
ghost use Rattle.hashlink.specs.Keyed.{entries_of};

use crate::few::{Map, is_value, map_of, passes};
use std::process::ExitCode;

/// Sets each value.
fn set_each(pairs: &mut Map, value: u64)
    ensures { entries_of pairs.new ≡ map (λ e. (e.0, value)) (entries_of pairs.old) }
{
    let mut values = pairs.values_mut();
    while let Some(old) = values.next() {
        *old = value;
    }
}

/// Sets each value to its key.
fn copy_keys(pairs: &mut Map)
    ensures { entries_of pairs.new ≡ map (λ e. (e.0, e.0)) (entries_of pairs.old) }
{
    let mut walk = pairs.iter_mut();
    while let Some((key, _value)) = walk.peek() {
        let key = *key;
        if let Some(value) = walk.next_value() {
            *value = key;
        }
    }
}

/// Whether both loops write.
fn writes_each(pairs: &mut Map) -> bool {
    set_each(pairs, 7);
    let is_set = is_value(pairs.get(&1), 7) & is_value(pairs.get(&2), 7);
    copy_keys(pairs);
    is_set & is_value(pairs.get(&2), 2)
}

#[test]
fn loops_write_each_value(rt: HostRuntime) -> ExitCode {
    passes(writes_each(&mut map_of(rt.alloc(), &[(1, 10), (2, 20)])))
}
