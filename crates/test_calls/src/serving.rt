//! What a program reads and writes if readers and writers fail.
use crate::few::{passes, says};
use hashlink::run::{Fault, serve};
use std::alloc::Global;
use std::io::{self, ErrorKind, Read, Write};
use std::process::ExitCode;

/// Whether the answer to a text follows the bytes that were written before.
fn is_appended(alloc: Global, output: &mut Vec<u8>) -> bool {
    let is_served = serve(alloc, &mut b"map\ninsert 1 10\niter\n".as_slice(), output).is_ok();
    is_served & (output.as_slice() == b"before\n-\n1:10\n".as_slice())
}

#[test]
fn the_answer_follows_what_was_written_before(rt: HostRuntime) -> ExitCode {
    passes(match b"before\n".to_vec(rt.alloc()) {
        Ok(mut output) => is_appended(rt.alloc(), &mut output),
        Err(_) => false,
    })
}

// A file that can be neither read nor written, and the reason.
#[derive(Clone, Copy)]
struct Broken {
    kind: ErrorKind,
}

impl Read for Broken {
    fn read(&mut self, _buf: &mut [u8]) -> io::Result<usize> {
        Err(io::Error::from(self.kind))
    }
}

impl Write for Broken {
    fn write(&mut self, _buf: &[u8]) -> io::Result<usize> {
        Err(io::Error::from(self.kind))
    }

    fn flush(&mut self) -> io::Result<()> {
        Err(io::Error::from(self.kind))
    }
}

/// Whether a read that ends with this error is this fault, and nothing is written.
fn fails_to_read(alloc: Global, kind: ErrorKind, fault: Fault) -> bool {
    let mut output = Vec::new(alloc);
    let mut input = b"map\niter\n".as_slice().chain(Broken { kind });
    let served = serve(alloc, &mut input, &mut output);
    (served == Err(fault)) & output.is_empty()
}

#[test]
fn failed_read_writes_nothing(rt: HostRuntime) -> ExitCode {
    passes(
        fails_to_read(rt.alloc(), ErrorKind::BrokenPipe, Fault::Reading)
            & fails_to_read(rt.alloc(), ErrorKind::OutOfMemory, Fault::Memory),
    )
}

/// Whether the answer to a text cannot be written.
fn fails_to_write(alloc: Global, mut text: &[u8]) -> bool {
    let kind = ErrorKind::BrokenPipe;
    serve(alloc, &mut text, &mut Broken { kind }) == Err(Fault::Writing)
}

#[test]
fn failed_write_is_a_fault(rt: HostRuntime) -> ExitCode {
    passes(fails_to_write(rt.alloc(), b"map\niter\n") & fails_to_write(rt.alloc(), b""))
}

#[test]
fn a_fault_says_what_failed(rt: HostRuntime) -> ExitCode {
    passes(
        says(rt.alloc(), &Fault::Reading, "linkrun: reading failed")
            & says(rt.alloc(), &Fault::Memory, "linkrun: no memory")
            & says(rt.alloc(), &Fault::Writing, "linkrun: writing failed"),
    )
}

// A writer that keeps what is written until it is flushed. Then it has passed on as many bytes as were
// written.
#[derive(Clone, Copy)]
struct Keeping {
    written: usize,
    passed: usize,
}

impl Write for Keeping {
    fn write(&mut self, buf: &[u8]) -> io::Result<usize> {
        self.written = self.written.saturating_add(buf.len());
        Ok(buf.len())
    }

    fn flush(&mut self) -> io::Result<()> {
        self.passed = self.written;
        Ok(())
    }
}

/// Whether all of the answer of so many bytes to a text is passed on.
fn is_flushed(alloc: Global, mut text: &[u8], length: usize) -> bool {
    let mut output = Keeping {
        written: 0,
        passed: 0,
    };
    let is_served = serve(alloc, &mut text, &mut output).is_ok();
    is_served & (output.written == length) & (output.passed == length)
}

#[test]
fn the_answer_is_flushed_once_it_is_written(rt: HostRuntime) -> ExitCode {
    passes(is_flushed(rt.alloc(), b"map\ninsert 1 10\niter\n", 7))
}
