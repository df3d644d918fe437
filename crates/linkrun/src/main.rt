//! Reads a text of commands from standard input and writes the answer to standard output.
#![tactic(auto)]

use hashlink_text::serve;
use std::process::ExitCode;

fn main(rt: HostRuntime) -> ExitCode {
    match serve(rt.alloc(), &mut rt.stdin(), &mut rt.stdout()) {
        Ok(()) => ExitCode::SUCCESS,
        Err(fault) => {
            let _ = eprintln!(rt; "{fault}");
            ExitCode::FAILURE
        }
    }
}
