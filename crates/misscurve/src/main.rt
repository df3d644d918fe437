//! Reads a trace, which has a key on each line, and writes how often caches of every capacity miss its keys.
#![tactic(auto)]

mod answers;
mod faults;
mod options;
mod picture;
mod report;
mod trace;

use answers::answer;
use faults::Fault;
use options::Options;
use std::env;
use std::hash::RandomState;
use std::io::{self, BufReader, BufWriter};
use std::process::ExitCode;

fn main(rt: HostRuntime) -> ExitCode {
    match run(&rt) {
        Ok(()) => ExitCode::SUCCESS,
        Err(fault) => {
            let _ = eprintln!(rt; "{fault}");
            ExitCode::from(fault.status())
        }
    }
}

fn run(rt: &HostRuntime) -> Result<(), Fault> {
    let alloc = rt.alloc();
    // The arguments have to be UTF-8.
    let arguments = env::args(rt).map_err(|error| Fault::of(error, Fault::Options))?;
    let arguments: Vec<String> = arguments.collect(alloc)?;
    let words: Vec<&str> = arguments
        .iter()
        .skip(1)
        .map(|word| word.as_str())
        .collect(alloc)?;
    let options = Options::parse(&words)?;
    let hash_builder = RandomState::new(rt).map_err(|_| Fault::Random)?;
    let mut writer = BufWriter::new(alloc, io::writer(rt)).map_err(|_| Fault::Memory)?;
    let mut reader = BufReader::new(alloc, rt.reader()).map_err(|_| Fault::Memory)?;
    answer(rt, alloc, options, hash_builder, &mut reader, &mut writer)
}
