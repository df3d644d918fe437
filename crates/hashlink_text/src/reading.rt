//! Several lines, each of which is answered by one line.
ghost use Rattle.std.specs.Prelude.{ℕ, List, OnOk};
ghost use Rattle.hashlink_text.specs.{Lines.lines_of, Transcript.{Pushes, PushesLine, ShowsAll}};

use crate::Lines;
use std::alloc::AllocError;

// A container on which lines of a text are run.
pub(crate) trait AnswersLines {
    // which text may answer a line to the container, and the container afterwards
    ghost shows: { Self → List ℕ → List ℕ → Self → Type 0 };

    // Pushes the answer to one line.
    fn answer_line(&mut self, line: &[u8], out: &mut String) -> Result<(), AllocError>
        ensures { OnOk result (PushesLine (λ text. shows self.old line.now text self.new) out.old out.new) };
}

// Pushes the answers to the lines.
pub(crate) fn answer_lines<C: AnswersLines>(
    container: &mut C,
    lines: Lines<'_>,
    out: &mut String,
) -> Result<(), AllocError>
    ensures { OnOk result (Pushes (λ text. ShowsAll C.shows container.old (lines_of lines.entry.rest.now)
        text container.new) out.old out.new) }
{
    for line in lines {
        container.answer_line(line, out)?;
    }
    Ok(())
}
