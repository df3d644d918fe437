//! Lines to two caches, and the lists of their entries at the end.
ghost use Rattle.std.specs.Prelude.{◌≡◌, ◌++◌, ◌∷◌, Some, OnOk, decimal, string_bytes};
ghost use Rattle.hashlink_core.specs.declared.hash_builder.DefaultHashBuilder.{DefaultHashBuilder};
ghost use Rattle.hashlink_text.specs.{Lines.lines_of, declared.modes.Mode.TheVariants.Pair, Text.ModeRun};
ghost use Rattle.hashlink_text.specs.CacheTranscript.{PairRun, PairShows, lists_shown};
ghost use Rattle.hashlink_text.specs.Transcript.{Pushes, PushesLine, ended, shown_by};
ghost use Rattle.hashlink_lru.specs.Cached.{entries_of, state_of};

use crate::shown::Form;
use crate::text::{push_list, push_reply};
use crate::{Lines, meaning_of};
use hashlink_lru::LruCache;
use hashlink_run::{PairCommand, Reply, answer_call};
use std::alloc::{AllocError, Global};

// Pushes the answers to the lines, which are run on two caches of the given capacities that are empty at
// first, and then the entries of the caches.
pub(crate) fn run_pair_lines(
    alloc: Global,
    small_capacity: usize,
    large_capacity: usize,
    lines: Lines<'_>,
    out: &mut String,
) -> Result<(), AllocError>
    ensures { OnOk result (Pushes (ModeRun DefaultHashBuilder (Some (Pair small_capacity large_capacity))
        (lines_of lines.entry.rest.now)) out.old out.new) }
{
    let mut small = LruCache::new(alloc, small_capacity);
    let mut large = LruCache::new(alloc, large_capacity);
    answer_all(&mut small, &mut large, lines, out)
}

// Pushes the answers to the lines, and then the entries of the caches. If an insert fails to allocate, it
// returns `AllocError`, as if there were no memory for the answer.
fn answer_all(
    small: &mut LruCache<u64, u64>,
    large: &mut LruCache<u64, u64>,
    lines: Lines<'_>,
    out: &mut String,
) -> Result<(), AllocError>
    ensures { OnOk result (Pushes (PairRun (state_of small.old).cap (state_of large.old).cap
        (entries_of small.old, entries_of large.old) (lines_of lines.entry.rest.now)) out.old out.new) }
{
    for line in lines {
        answer(small, large, meaning_of(line), out)?;
    }
    push_lists(small, large, out)
}

// Pushes the answer to a line with this meaning.
fn answer(
    small: &mut LruCache<u64, u64>,
    large: &mut LruCache<u64, u64>,
    line: Option<PairCommand<u64, u64>>,
    out: &mut String,
) -> Result<(), AllocError>
    ensures shown { OnOk result (PushesLine
        (λ text. PairShows (state_of small.old).cap (state_of large.old).cap
        (entries_of small.old, entries_of large.old)
        line text (entries_of small.new, entries_of large.new)) out.old out.new) }
    ensures small_capacity { OnOk result ((state_of small.new).cap ≡ (state_of small.old).cap) }
    ensures large_capacity { OnOk result ((state_of large.new).cap ≡ (state_of large.old).cap) }
{
    let Some(command) = line else {
        return writeln!(out, "bad");
    };
    let small_answer = answer_call(small, command)?;
    let large_answer = answer_call(large, command)?;
    push_answers(small_answer, large_answer, out)
}

// Pushes the line that shows both results.
fn push_answers(small: Option<u64>, large: Option<u64>, out: &mut String) -> Result<(), AllocError>
    ensures { OnOk result (string_bytes out.new
        ≡ string_bytes out.old ++ ended (shown_by decimal small ++ (32 ∷ shown_by decimal large))) }
{
    push_reply(Form::OfValue, Reply::Value(small), out)?;
    write!(out, " ")?;
    push_reply(Form::OfValue, Reply::Value(large), out)?;
    writeln!(out)
}

// Pushes a line for each cache that shows its entries.
fn push_lists(
    small: &LruCache<u64, u64>,
    large: &LruCache<u64, u64>,
    out: &mut String,
) -> Result<(), AllocError>
    ensures { OnOk result (string_bytes out.new
        ≡ string_bytes out.old ++ lists_shown (entries_of small.now, entries_of large.now)) }
{
    push_list(small.iter(), out)?;
    push_list(large.iter(), out)
}
