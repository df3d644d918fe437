//! Lines to a cache with a budget.
ghost use Rattle.std.specs.Prelude.{◌≡◌, ◌++◌, Some, OnOk, string_bytes};
ghost use Rattle.hashlink_core.specs.declared.hash_builder.DefaultHashBuilder.{DefaultHashBuilder};
ghost use Rattle.hashlink_text.specs.{Lines.lines_of, declared.modes.Mode.TheVariants.Weighted, Text.ModeRun};
ghost use Rattle.hashlink_text.specs.Transcript.{Pushes, PushesLine, ended, list_shown};
ghost use Rattle.hashlink_text.specs.WeightedTranscript.{WeightedLineShows, WeightedShows, pairs_of};

use crate::reading::{AnswersLines, answer_lines};
use crate::shown::Form;
use crate::text::push_replies;
use crate::{Lines, WeightedLine, meaning_of};
use hashlink_run::answer_weighted;
use hashlink_weighted::{WeightedCache, WeightedIter};
use std::alloc::{AllocError, Global};

// Pushes the answers to the lines, which are run on a cache of this budget that is empty at first.
pub(crate) fn run_weighted_lines(
    alloc: Global,
    budget: u64,
    lines: Lines<'_>,
    out: &mut String,
) -> Result<(), AllocError>
    ensures { OnOk result (Pushes (ModeRun DefaultHashBuilder (Some (Weighted budget))
        (lines_of lines.entry.rest.now)) out.old out.new) }
{
    let mut cache = WeightedCache::new(alloc, budget);
    answer_lines(&mut cache, lines, out)
}

impl AnswersLines for WeightedCache<u64, u64> {
    ghost shows = { WeightedLineShows };

    fn answer_line(&mut self, line: &[u8], out: &mut String) -> Result<(), AllocError> {
        answer(self, meaning_of(line), out)
    }
}

// Pushes the answer to a line with this meaning.
fn answer(
    cache: &mut WeightedCache<u64, u64>,
    line: Option<WeightedLine>,
    out: &mut String,
) -> Result<(), AllocError>
    ensures { OnOk result (PushesLine (λ text. WeightedShows cache.old line text cache.new) out.old out.new) }
{
    match line {
        Some(WeightedLine::Do(command)) => {
            let reply = answer_weighted(cache, command, &|key: &u64, value: &u64| (*key, *value));
            push_replies(Form::OfValue, &[reply], out)
        }
        Some(WeightedLine::Total) => writeln!(out, "{}", cache.total()),
        Some(WeightedLine::Len) => writeln!(out, "{}", cache.len()),
        Some(WeightedLine::Iter) => push_pairs(cache.iter(), out),
        None => writeln!(out, "bad"),
    }
}

// Pushes the line that shows the pairs that an iterator has yet to return, without their weights.
fn push_pairs(mut entries: WeightedIter<'_, u64, u64>, out: &mut String) -> Result<(), AllocError>
    ensures { OnOk result (string_bytes out.new
        ≡ string_bytes out.old ++ ended (list_shown (pairs_of entries.entry))) }
{
    let Some((key, value, _)) = entries.next() else {
        return writeln!(out, "empty");
    };
    write!(out, "{key}:{value}")?;
    for (key, value, _) in entries {
        write!(out, " {key}:{value}")?;
    }
    writeln!(out)
}
