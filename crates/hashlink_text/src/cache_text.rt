//! Lines to a cache.
ghost use Rattle.std.specs.Prelude.{Some, OnOk};
ghost use Rattle.hashlink_core.specs.declared.hash_builder.DefaultHashBuilder.{DefaultHashBuilder};
ghost use Rattle.hashlink_text.specs.{Lines.lines_of, declared.modes.Mode.TheVariants.Cache, Text.ModeRun};
ghost use Rattle.hashlink_text.specs.CacheTranscript.{CacheLineShows, CacheShows};
ghost use Rattle.hashlink_text.specs.Transcript.{Pushes, PushesLine};
ghost use Rattle.hashlink_lru.specs.Cached.{state_of};

use crate::reading::{AnswersLines, answer_lines};
use crate::shown::Form;
use crate::text::{push_list, push_replies};
use crate::{CacheLine, Lines, meaning_of};
use hashlink_lru::LruCache;
use hashlink_run::answer_cache;
use std::alloc::{AllocError, Global};

// Pushes the answers to the lines, which are run on a cache of this capacity that is empty at first.
pub(crate) fn run_cache_lines(
    alloc: Global,
    capacity: usize,
    lines: Lines<'_>,
    out: &mut String,
) -> Result<(), AllocError>
    ensures { OnOk result (Pushes (ModeRun DefaultHashBuilder (Some (Cache capacity))
        (lines_of lines.entry.rest.now)) out.old out.new) }
{
    let mut cache = LruCache::new(alloc, capacity);
    answer_lines(&mut cache, lines, out)
}

impl AnswersLines for LruCache<u64, u64> {
    ghost shows = { λ old line text new. CacheLineShows (state_of old) line text (state_of new) };

    fn answer_line(&mut self, line: &[u8], out: &mut String) -> Result<(), AllocError> {
        answer(self, meaning_of(line), out)
    }
}

// Pushes the answer to a line with this meaning.
fn answer(
    cache: &mut LruCache<u64, u64>,
    line: Option<CacheLine>,
    out: &mut String,
) -> Result<(), AllocError>
    ensures { OnOk result (PushesLine
        (λ text. CacheShows (state_of cache.old) line text (state_of cache.new)) out.old out.new) }
{
    match line {
        Some(CacheLine::Do(command)) => {
            let reply = answer_cache(cache, command, &|key: &u64, value: &u64| (*key, *value));
            push_replies(Form::OfValue, &[reply], out)
        }
        Some(CacheLine::Len) => writeln!(out, "{}", cache.len()),
        Some(CacheLine::Iter) => push_list(cache.iter(), out),
        None => writeln!(out, "bad"),
    }
}
