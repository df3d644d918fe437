ghost use Rattle.std.specs.Prelude.{◌≡◌, [], ◌++◌, IfOk, IsOk, OnOk, string_bytes};
ghost use Rattle.hashlink_core.specs.declared.hash_builder.DefaultHashBuilder.{DefaultHashBuilder};
ghost use Rattle.hashlink_text.specs.Transcript.{Pushes, ended, list_shown, read_shown, reply_shown};
ghost use Rattle.hashlink_text.specs.{Lines.lines_of, Text.{IsTranscript, ModeRun}, Transcript.replies_shown};

use crate::cache_text::run_cache_lines;
use crate::map_text::run_map_lines;
use crate::pair_text::run_pair_lines;
use crate::shown::Form;
use crate::weighted_text::run_weighted_lines;
use crate::{Lines, Mode, meaning_of};
use hashlink_map::Iter;
use hashlink_run::Reply;
use std::alloc::{AllocError, Global};

/// Returns the answer to a text of lines. The first line names the container on which the others are run.
///
/// It reads the text once, and each line has the cost of the container's method that it names. If memory for
/// the answer runs out, it returns `AllocError`. If an insert runs out of memory, its line is answered, and
/// the next line follows; but in the mode `pair` it returns `AllocError`. For a text without a line it needs
/// no memory.
pub fn run_text(alloc: Global, input: &[u8]) -> Result<Vec<u8>, AllocError>
    ensures answer { IfOk result (λ text. IsTranscript input.now text.items) }
    ensures none { lines_of input.now ≡ [] → IsOk result }
{
    let mut lines = Lines::new(input);
    let Some(mode) = lines.next() else {
        return Ok(Vec::new(alloc));
    };
    let mut out = String::new(alloc);
    run_lines(alloc, meaning_of(mode), lines, &mut out)?;
    Ok(out.into_bytes())
}

// Pushes the answers to the lines, which are run on the container that the mode names.
fn run_lines(
    alloc: Global,
    mode: Option<Mode>,
    lines: Lines<'_>,
    out: &mut String,
) -> Result<(), AllocError>
    ensures { OnOk result (Pushes (ModeRun DefaultHashBuilder mode (lines_of lines.entry.rest.now))
        out.old out.new) }
{
    match mode {
        Some(Mode::Map) => run_map_lines(alloc, lines, out),
        Some(Mode::Cache(capacity)) => run_cache_lines(alloc, capacity, lines, out),
        Some(Mode::Pair(small, large)) => run_pair_lines(alloc, small, large, lines, out),
        Some(Mode::Weighted(budget)) => run_weighted_lines(alloc, budget, lines, out),
        None => writeln!(out, "bad"),
    }
}

// Pushes the line that shows the replies to a command.
pub(crate) fn push_replies(
    form: Form,
    replies: &[Reply<u64, u64, (u64, u64)>],
    out: &mut String,
) -> Result<(), AllocError>
    ensures { OnOk result (string_bytes out.new ≡ string_bytes out.old
        ++ ended (replies_shown form replies.now)) }
{
    let mut rest = replies.iter();
    let Some(first) = rest.next() else {
        return writeln!(out);
    };
    push_reply(form, *first, out)?;
    for reply in rest {
        write!(out, " ")?;
        push_reply(form, *reply, out)?;
    }
    writeln!(out)
}

// Pushes one reply.
pub(crate) fn push_reply(
    form: Form,
    reply: Reply<u64, u64, (u64, u64)>,
    out: &mut String,
) -> Result<(), AllocError>
    ensures { OnOk result (string_bytes out.new ≡ string_bytes out.old ++ reply_shown form reply) }
{
    match reply {
        Reply::Done => write!(out, "ok"),
        Reply::Denied | Reply::Refused(..) => write!(out, "memory"),
        Reply::TooHeavy(..) => write!(out, "heavy"),
        Reply::Value(Some(value)) | Reply::Key(Some(value)) => write!(out, "{value}"),
        Reply::Pair(Some((key, value))) => write!(out, "{key}:{value}"),
        Reply::Value(None) | Reply::Key(None) | Reply::Pair(None) => write!(out, "-"),
        Reply::Seen(pair) => push_read(form, pair, out),
        Reply::Length(number) => write!(out, "{number}"),
    }
}

// Pushes the pair that a command read.
fn push_read(form: Form, pair: Option<(u64, u64)>, out: &mut String) -> Result<(), AllocError>
    ensures { OnOk result (string_bytes out.new ≡ string_bytes out.old ++ read_shown form pair) }
{
    match (form, pair) {
        (Form::Whole, Some((key, value))) => write!(out, "{key}:{value}"),
        (_, Some((_, value))) => write!(out, "{value}"),
        (Form::OrGiven(value), None) => write!(out, "{value}"),
        (_, None) => write!(out, "-"),
    }
}

// Pushes the line that shows the pairs that an iterator has yet to return.
pub(crate) fn push_list(mut pairs: Iter<'_, u64, u64>, out: &mut String) -> Result<(), AllocError>
    ensures { OnOk result (string_bytes out.new ≡ string_bytes out.old ++ ended (list_shown pairs.entry)) }
{
    let Some((key, value)) = pairs.next() else {
        return writeln!(out, "empty");
    };
    write!(out, "{key}:{value}")?;
    for (key, value) in pairs {
        write!(out, " {key}:{value}")?;
    }
    writeln!(out)
}
