//! How a row is timed and printed.
use crate::fill::{Fill, Filled, Made};
use crate::keys::Keys;
use crate::lists::{Listed, Lists, Order};
use crate::request::Request;
use std::alloc::AllocError;
use std::cell::Cell;
use std::io;
use std::rt::Clock;
use std::time::Duration;

/// A round has about this many operations.
const OPERATIONS: usize = 1_000_000;

/// The requested rows at one size, and their outcome.
#[derive(Drop)]
pub(crate) struct Plan<'a> {
    pub(crate) rt: &'a HostRuntime,
    pub(crate) request: &'a Request,
    pub(crate) keys: &'a Keys,
    /// Whether all rows of the current kind are requested.
    has_kind: Cell<bool>,
    /// Whether any row was requested.
    has_rows: Cell<bool>,
    /// Why a row could not be done. The rows after it are skipped.
    failure: Cell<Option<io::Error>>,
}

/// A row: its name, the items of its calls, when its container is made, and the contents of the container.
pub(crate) type Line = (&'static str, Order, Made, Fill);

/// A call that is timed, on a container, or on two, of type `S`, with items of type `T`.
pub(crate) trait Row<S, T> {
    /// Makes the call, with an item and its index in the list. Returns a number, or `None` without memory.
    fn call(state: &mut S, place: u64, item: &T) -> Option<u64>;
}

/// Folds a result into a sum.
#[inline(always)]
pub(crate) fn fold(sum: u64, answer: u64) -> u64 {
    sum.rotate_left(5) ^ answer
}

impl<'a> Plan<'a> {
    pub(crate) fn new(rt: &'a HostRuntime, request: &'a Request, keys: &'a Keys) -> Self {
        Plan {
            rt,
            request,
            keys,
            has_kind: Cell::new(false),
            has_rows: Cell::new(false),
            failure: Cell::new(None),
        }
    }

    /// Sets the kind of the next rows.
    pub(crate) fn kind(&self, kind: &str) {
        let what = self.request.what.as_str();
        self.has_kind.set(what == kind || what == "all");
    }

    /// Returns whether a row was done, or why one could not be.
    pub(crate) fn end(self) -> io::Result<bool> {
        match self.failure.into_inner() {
            Some(failure) => Err(failure),
            None => Ok(self.has_rows.get()),
        }
    }

    /// The rows of a call.
    pub(crate) fn row<W: Row<S, T>, S: Filled, T: Listed>(&self, lines: &[Line]) {
        for line in lines {
            self.run::<10, W, S, T>(*line);
        }
    }

    /// The rows of a call that the program makes at one place only.
    pub(crate) fn row_alone<W: Row<S, T>, S: Filled, T: Listed>(&self, lines: &[Line]) {
        for line in lines {
            self.run::<1, W, S, T>(*line);
        }
    }

    /// Whether the row is requested.
    pub(crate) fn wants(&self, name: &str) -> bool {
        if !self.has_kind.get() && self.request.what.as_str() != name {
            return false;
        }
        self.has_rows.set(true);
        let failure = self.failure.take();
        let is_wanted = failure.is_none();
        self.failure.set(failure);
        is_wanted
    }

    /// Keeps why a row could not be done.
    pub(crate) fn note(&self, outcome: io::Result<()>) {
        self.failure.set(outcome.err());
    }

    /// Does a row if it is requested.
    pub(crate) fn run<const PLACES: u64, W: Row<S, T>, S: Filled, T: Listed>(&self, line: Line) {
        let (name, _, _, _) = line;
        if self.wants(name) {
            self.note(self.time::<PLACES, W, S, T>(line));
        }
    }

    /// Does a row and writes its line.
    fn time<const PLACES: u64, W: Row<S, T>, S: Filled, T: Listed>(
        &self,
        line: Line,
    ) -> io::Result<()> {
        let (name, order, _, fill) = line;
        let mut lists = Lists::new(order);
        let mut state = S::filled(self.keys, fill).ok_or(AllocError)?;
        if self.request.rounds == 0 {
            let (sum, _) = self.pass::<PLACES, W, S, T>(line, &mut lists, &mut state, 0)?;
            return self.print_answers(name, sum);
        }
        let operations = order.operations(self.keys.size()).max(1);
        let passes = (OPERATIONS / operations).max(1);
        let timed = passes.saturating_mul(operations).max(1) as u128;
        let mut least = u128::MAX;
        let mut sum: u64 = 0;
        for _ in 0..self.request.rounds {
            let (answers, spent) = self.round::<PLACES, W, S, T>(
                passes, line, &mut lists, &mut state, sum,
            )?;
            sum = answers;
            least = least.min(spent.as_nanos().saturating_mul(100) / timed);
        }
        self.print_time(name, least, timed, sum)
    }

    /// Does this many passes.
    fn round<const PLACES: u64, W: Row<S, T>, S: Filled, T: Listed>(
        &self,
        passes: usize,
        line: Line,
        lists: &mut Lists,
        state: &mut S,
        sum: u64,
    ) -> io::Result<(u64, Duration)> {
        let mut sum = sum;
        let mut spent = Duration::ZERO;
        for _ in 0..passes {
            // It is not linear as the folds are, so that equal passes don't cancel out.
            sum = sum.wrapping_add(1).wrapping_mul(0x9e37_79b9_7f4a_7c15);
            let (answers, time) = self.pass::<PLACES, W, S, T>(line, lists, state, sum)?;
            sum = answers;
            spent = spent.saturating_add(time);
        }
        Ok((sum, spent))
    }

    /// Does a pass, and returns the sum with the results and the time that they took.
    fn pass<const PLACES: u64, W: Row<S, T>, S: Filled, T: Listed>(
        &self,
        line: Line,
        lists: &mut Lists,
        state: &mut S,
        sum: u64,
    ) -> io::Result<(u64, Duration)> {
        let (_, _, made, fill) = line;
        let pass = lists.passes();
        let items: Vec<T> = lists.next(self.keys)?;
        if made == Made::Anew {
            *state = S::filled(self.keys, fill).ok_or(AllocError)?;
        }
        let start = self.rt.monotonic()?;
        let answers = if PLACES == 1 {
            call_each::<0, W, S, T>(state, &items, sum)
        } else {
            call_each_from_ten::<W, S, T>(pass, state, &items, sum)
        };
        let end = self.rt.monotonic()?;
        Ok((answers.ok_or(AllocError)?, end.saturating_sub(start)))
    }

    pub(crate) fn print_answers(&self, name: &str, sum: u64) -> io::Result<()> {
        let rt = self.rt;
        let size = self.keys.size();
        println!(rt; "{name} {size} {sum:016x}")
    }

    pub(crate) fn print_time(
        &self,
        name: &str,
        hundredths: u128,
        timed: u128,
        sum: u64,
    ) -> io::Result<()> {
        let rt = self.rt;
        let size = self.keys.size();
        println!(rt;
            "{name} {size} {}.{:02} {timed}",
            hundredths / 100,
            hundredths % 100
        )?;
        eprintln!(rt; "checksum {name} {size} {sum:016x}")
    }
}

/// Makes the call on each item, and folds the results into the sum. Each pass uses another of ten places in
/// the program, so that no call is fast because it has a single caller.
fn call_each_from_ten<W: Row<S, T>, S, T>(
    pass: u64,
    state: &mut S,
    items: &[T],
    sum: u64,
) -> Option<u64> {
    match pass % 10 {
        0 => call_each::<0, W, S, T>(state, items, sum),
        1 => call_each::<1, W, S, T>(state, items, sum),
        2 => call_each::<2, W, S, T>(state, items, sum),
        3 => call_each::<3, W, S, T>(state, items, sum),
        4 => call_each::<4, W, S, T>(state, items, sum),
        5 => call_each::<5, W, S, T>(state, items, sum),
        6 => call_each::<6, W, S, T>(state, items, sum),
        7 => call_each::<7, W, S, T>(state, items, sum),
        8 => call_each::<8, W, S, T>(state, items, sum),
        _ => call_each::<9, W, S, T>(state, items, sum),
    }
}

/// Makes the call on each item, and folds the results and the place into the sum. So no two of these
/// functions are alike, and none is merged with another.
#[inline(never)]
pub(crate) fn call_each<const PLACE: u64, W: Row<S, T>, S, T>(
    state: &mut S,
    items: &[T],
    sum: u64,
) -> Option<u64> {
    let mut sum = sum ^ PLACE;
    for (place, item) in items.iter().enumerate() {
        sum = fold(sum, W::call(state, place as u64, item)?);
    }
    Some(sum)
}
