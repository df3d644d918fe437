//! Lines to a map.
ghost use Rattle.std.specs.{Prelude.{Some, OnOk}, Option.option_map};
ghost use Rattle.hashlink_core.specs.declared.hash_builder.DefaultHashBuilder.{DefaultHashBuilder};
ghost use Rattle.hashlink_core.specs.Keyed.{state_of};
ghost use Rattle.hashlink_text.specs.{Lines.lines_of, Spelling.said, declared.modes.Mode.TheVariants.Map};
ghost use Rattle.hashlink_text.specs.{Text.ModeRun, Transcript.{LineShows, Pushes, PushesLine, Shows}};

use crate::reading::{AnswersLines, answer_lines};
use crate::shown::form_of;
use crate::text::{push_list, push_replies};
use crate::{Line, Lines};
use hashlink_map::LinkedHashMap;
use hashlink_run::{Reply, answer_command};
use std::alloc::{AllocError, Global};

// Pushes the answers to the lines, which are run on a map that is empty at first.
pub(crate) fn run_map_lines(
    alloc: Global,
    lines: Lines<'_>,
    out: &mut String,
) -> Result<(), AllocError>
    ensures { OnOk result (Pushes (ModeRun DefaultHashBuilder (Some Map) (lines_of lines.entry.rest.now))
        out.old out.new) }
{
    let mut map = MapWithReplies {
        alloc,
        map: LinkedHashMap::new(alloc),
        replies: Vec::new(alloc),
    };
    answer_lines(&mut map, lines, out)
}

// A map, and the replies to the last line, whose memory the next line reuses.
#[derive(Drop)]
struct MapWithReplies {
    alloc: Global,
    map: LinkedHashMap<u64, u64>,
    replies: Vec<Reply<u64, u64, (u64, u64)>>,
}

impl AnswersLines for MapWithReplies {
    ghost shows = { λ old line text new. LineShows (state_of old.map) line text (state_of new.map) };

    fn answer_line(&mut self, line: &[u8], out: &mut String) -> Result<(), AllocError> {
        let line = Line::parse(self.alloc, line)?;
        self.answer(line, out)
    }
}

impl MapWithReplies {
    // Pushes the answer to a line with this meaning.
    fn answer(&mut self, line: Option<Line>, out: &mut String) -> Result<(), AllocError>
        ensures { OnOk result (PushesLine (λ text. Shows (state_of self.old.map) (option_map said line) text
            (state_of self.new.map)) out.old out.new) }
    {
        match line {
            Some(Line::Do(command)) => {
                let form = form_of(&command);
                self.replies.clear();
                answer_command(
                    &mut self.map,
                    command,
                    &|key: &u64, value: &u64| (*key, *value),
                    &|_: &u64, value: &u64| *value % 2 == 0,
                    &mut self.replies,
                )?;
                push_replies(form, &self.replies, out)
            }
            Some(Line::Iter) => push_list(self.map.iter(), out),
            None => writeln!(out, "bad"),
        }
    }
}
