//! std's traits: the results of `collect`, and the clones of a derive.
use crate::few::{Map, is_value, passes};
use std::alloc::{AllocError, Global};
use std::process::ExitCode;

/// A type that contains a container.
#[derive(Clone, Drop)]
struct Index {
    values: Map,
}

/// A map of the numbers from 1 to 3.
fn values(alloc: Global) -> Result<Map, AllocError> {
    (1u64..4).map(|x| (x, x)).collect(alloc)
}

/// Whether a clone of an index has 3.
fn is_cloned(index: Index) -> bool {
    match index.clone() {
        Ok(clone) => is_value(clone.values.get(&3), 3),
        Err(_) => false,
    }
}

#[test]
fn what_holds_a_container_is_cloned(rt: HostRuntime) -> ExitCode {
    passes(match values(rt.alloc()) {
        Ok(values) => is_cloned(Index { values }),
        Err(_) => false,
    })
}
