//! Sessions that expire.
ghost use Rattle.std.specs.Prelude.{◌≡◌, []};

use crate::few::passes;
use hashlink_uses::sessions::Sessions;
use std::process::ExitCode;

/// Whether of two sessions the one that was used since a time is left, with the time of its last use.
fn expire(sessions: &mut Sessions) -> bool
    requires { sessions.old ≡ [] }
{
    let Ok(()) = sessions.open(1, 1) else {
        return false;
    };
    let Ok(()) = sessions.open(2, 2) else {
        return false;
    };
    let is_open = sessions.touch(1, 3);
    sessions.expire(3);
    is_open & (sessions.len() == 1) & (sessions.last_use(1) == Some(3))
}

#[test]
fn a_session_that_is_used_stays(rt: HostRuntime) -> ExitCode {
    passes(expire(&mut Sessions::new(rt.alloc())))
}
