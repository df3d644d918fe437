//! The form in which the replies to a command to a map are shown.
ghost use Rattle.std.specs.Prelude.{◌≡◌};
ghost use Rattle.hashlink_text.specs.Transcript.{form_of};

use hashlink_run::{Command, EntryStep};

// The form in which a pair that a command read is shown.
#[derive(Clone, Copy)]
pub(crate) enum Form {
    // By its value, or by a dash if there is none.
    OfValue,
    // By its key and its value, or by a dash if there is none.
    Whole,
    // By its value, or by the given value if there is no pair.
    OrGiven(u64),
}

// Returns the form in which the pair that the command reads is shown.
pub(crate) fn form_of(command: &Command<u64, u64>) -> Form
    ensures { result ≡ form_of command.now }
{
    match command {
        Command::Front | Command::Back | Command::Cursor(_) => Form::Whole,
        Command::Entry(_, EntryStep::OrInsert(value)) => Form::OrGiven(*value),
        _ => Form::OfValue,
    }
}
