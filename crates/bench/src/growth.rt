//! The longest insert into a map, which is one for which the map grows.
use crate::fill::Fill::Empty;
use crate::fill::Made::Anew;
use crate::inserts::Insert;
use crate::lists::Order::Held;
use crate::plan::{Plan, Row, fold};
use hashlink::LinkedHashMap;
use std::alloc::AllocError;
use std::io;
use std::rt::Clock;
use std::time::Duration;

/// The time of the longest insert, as all keys are inserted into an empty map, and the sum of the results.
fn longest_insert(plan: &Plan<'_>) -> io::Result<(Duration, u64)> {
    let mut map = LinkedHashMap::new(plan.keys.alloc);
    let mut longest = Duration::ZERO;
    let mut sum: u64 = 0;
    for (place, key) in plan.keys.held.iter().enumerate() {
        let start = plan.rt.monotonic()?;
        let answer = Insert::call(&mut map, place as u64, key).ok_or(AllocError)?;
        let end = plan.rt.monotonic()?;
        longest = longest.max(end.saturating_sub(start));
        sum = fold(sum, answer);
    }
    Ok((longest, sum))
}

/// Writes the least time of the rounds.
fn time_longest(plan: &Plan<'_>) -> io::Result<()> {
    let mut least = u128::MAX;
    let mut sum: u64 = 0;
    for _ in 0..plan.request.rounds {
        let (longest, answers) = longest_insert(plan)?;
        least = least.min(longest.as_nanos().saturating_mul(100));
        sum = answers;
    }
    plan.print_time("insert_longest", least, 1, sum)
}

pub(crate) fn rows(plan: &Plan<'_>) {
    plan.kind("growth");
    if plan.request.rounds == 0 {
        plan.row::<Insert, _, _>(&[("insert_longest", Held, Anew, Empty)]);
    } else if plan.wants("insert_longest") {
        plan.note(time_longest(plan));
    }
}
