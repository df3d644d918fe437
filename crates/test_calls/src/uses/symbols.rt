//! Numbers of names.
use crate::few::passes;
use hashlink_uses::symbols::Symbols;
use std::alloc::Global;
use std::process::ExitCode;

/// Whether a number has this name.
fn is_name(symbols: &Symbols, number: usize, name: &str) -> bool {
    symbols
        .name(number)
        .is_some_and(|found| found.as_str() == name)
}

/// Whether names are numbered in the order in which they come in, each once.
fn are_numbered(alloc: Global, symbols: &mut Symbols) -> bool {
    let numbers = [
        symbols.number(alloc, "x"),
        symbols.number(alloc, "count"),
        symbols.number(alloc, "x"),
        symbols.number(alloc, ""),
        symbols.number(alloc, "count"),
    ];
    (numbers == [Ok(0), Ok(1), Ok(0), Ok(2), Ok(1)])
        & is_name(symbols, 0, "x")
        & is_name(symbols, 1, "count")
        & is_name(symbols, 2, "")
        & symbols.name(3).is_none()
}

#[test]
fn a_name_keeps_its_number(rt: HostRuntime) -> ExitCode {
    passes(are_numbered(rt.alloc(), &mut Symbols::new(rt.alloc())))
}
