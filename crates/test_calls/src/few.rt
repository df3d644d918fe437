//! Small containers of numbers, and checks of values.
ghost use Rattle.std.specs.Prelude.{◌≡◌, if◌then◌else◌};

use hashlink::{LinkedHashMap, LinkedHashSet, LruCache, TryReserveError};
use std::alloc::Global;
use std::error::Error;
use std::fmt;
use std::process::ExitCode;

/// The exit code of a test. It makes the test's proof cheaper than an assertion, which would be one more exit
/// path.
pub(crate) fn passes(holds: bool) -> ExitCode
    ensures { result ≡ (if holds then ExitCode.SUCCESS else ExitCode.FAILURE) }
{
    if holds {
        ExitCode::SUCCESS
    } else {
        ExitCode::FAILURE
    }
}

/// Whether the error has this message.
pub(crate) fn says<E: Error>(alloc: Global, error: &E, text: &str) -> bool {
    match error.to_string(alloc) {
        Ok(said) => said.as_str() == text,
        Err(_) => false,
    }
}

/// Whether `{:?}` formats the value as this text. It takes the value, so that a test has none to drop.
pub(crate) fn shows<T: fmt::Debug + Drop>(alloc: Global, value: T, text: &str) -> bool {
    match format!(in alloc; "{value:?}") {
        Ok(shown) => shown.as_str() == text,
        Err(_) => false,
    }
}

/// Whether a clone of the value is equal to it.
pub(crate) fn is_cloned<T: Clone + PartialEq + Drop>(value: &T) -> bool {
    match value.clone() {
        Ok(clone) => clone == *value,
        Err(_) => false,
    }
}

/// Whether a value was found, and is this one.
pub(crate) fn is_value<T: Copy + PartialEq>(found: Option<&T>, value: T) -> bool {
    found == Some(&value)
}

/// Whether a pair was found, and is this one.
pub(crate) fn is_pair<K: Copy + PartialEq, V: Copy + PartialEq>(
    found: Option<(&K, &V)>,
    key: K,
    value: V,
) -> bool {
    found == Some((&key, &value))
}

pub(crate) type Map = LinkedHashMap<u64, u64>;

pub(crate) fn map_of(alloc: Global, pairs: &[(u64, u64)]) -> Map {
    let mut map = LinkedHashMap::new(alloc);
    for (key, value) in pairs {
        let _old = map.insert(*key, *value);
    }
    map
}

pub(crate) fn set_of(alloc: Global, elements: &[u64]) -> LinkedHashSet<u64> {
    let mut set = LinkedHashSet::new(alloc);
    for element in elements {
        let _is_new = set.insert(*element);
    }
    set
}

/// A cache into which the pairs were inserted.
pub(crate) fn cache_of(alloc: Global, capacity: usize, pairs: &[(u64, u64)]) -> LruCache<u64, u64> {
    let mut cache = LruCache::new(alloc, capacity);
    for (key, value) in pairs {
        let _old = cache.insert(*key, *value);
    }
    cache
}

#[test]
fn what_is_asked_of_values_tells_what_is_wrong(rt: HostRuntime) -> ExitCode {
    passes(
        !says(rt.alloc(), &TryReserveError::AllocError, "no memory")
            & !shows(rt.alloc(), 1u64, "2")
            & !is_cloned(&f64::NAN)
            & !is_value(Some(&1u64), 2)
            & !is_value(None::<&u64>, 2)
            & !is_pair(Some((&1u64, &10u64)), 1, 20)
            & !is_pair(Some((&1u64, &10u64)), 2, 10),
    )
}
