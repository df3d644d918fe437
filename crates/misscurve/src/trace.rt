//! Reads a trace.
ghost use Rattle.std.specs.{Prelude.{◌≡◌, ◌<◌, length, IfOk, OnOk, IfSome}, Bool.{OnTrue, OnFalse}};
ghost use Rattle.std.specs.Io.{BufRead.{take_through, strip_last, DropsThrough}, KnownBytes.IsAtEnd};
ghost use Rattle.misscurve.specs.Trace.{CountsLine, CountsTrace, is_picked, mixed};

use crate::faults::Fault;
use hashlink_curve::MissCurve;
use std::alloc::{AllocError, Global};
use std::hash::BuildHasher;
use std::io::{BufRead, Eprint};

/// The progress is printed each time after this many lines.
const PROGRESS: u64 = 1 << 22;

/// Returns the curve of the reader's keys, one on each line, or of the keys in one of `parts` parts. Only the
/// distinct keys are kept, each allocated once; lines are not kept.
///
/// Whether a read or an allocation fails depends on the reader and the memory, and no clause states it.
pub fn curve_of<B: BufRead, S: BuildHasher + Drop>(
    rt: &impl Eprint,
    alloc: Global,
    hash_builder: S,
    reader: &mut B,
    parts: u64,
) -> Result<MissCurve<Vec<u8>, S>, Fault>
    // If the bytes of the reader are known, their lines are counted, and nothing else.
    ensures counted { IfOk result (λ curve. IfSome (B.remaining reader.old)
        (λ bytes. CountsTrace parts bytes curve)) }
    ensures end { OnOk result (IfSome (B.remaining reader.old) (λ _. IsAtEnd (B.remaining reader.new))) }
{
    let mut curve = MissCurve::with_hasher(alloc, hash_builder);
    let mut line = Vec::new(alloc);
    for count in 1..u64::MAX {
        if !read_line(reader, &mut line)? {
            return Ok(curve);
        }
        record(&mut curve, alloc, without_end(&line), parts)?;
        if count % PROGRESS == 0 {
            tell(rt, count, curve.distinct());
        }
    }
    Err(Fault::Reading) // more lines than can be counted
}

/// Reads the next line, with the byte that ends it, and returns whether there was one.
fn read_line<B: BufRead>(reader: &mut B, line: &mut Vec<u8>) -> Result<bool, Fault>
    ensures read { OnOk result (IfSome (B.remaining reader.old)
        (λ bytes. line.new.items ≡ take_through 10 bytes)) }
    ensures rest { OnOk result (DropsThrough (B.remaining reader.old) (B.remaining reader.new) 10) }
    ensures more { IfOk result (λ more. OnTrue more (0 < length line.new.items)) }
    ensures end { IfOk result (λ more. OnFalse more (IsAtEnd (B.remaining reader.old))) }
{
    line.clear();
    match reader.read_until(b'\n', line) {
        Ok(count) => Ok(count > 0),
        Err(error) => Err(Fault::of(error, Fault::Reading)),
    }
}

/// Returns the line without the byte that ends it, if it has one.
fn without_end(line: &[u8]) -> &[u8]
    ensures { result.now ≡ strip_last 10 line.now }
{
    match line.split_last() {
        Some((b'\n', front)) => front,
        _ => line,
    }
}

/// Records the line, if it is in the part that is read. It makes a key only for a new line.
fn record<S: BuildHasher>(
    curve: &mut MissCurve<Vec<u8>, S>,
    alloc: Global,
    line: &[u8],
    parts: u64,
) -> Result<(), AllocError>
    ensures { OnOk result (CountsLine parts line.now curve.old curve.new) }
{
    if is_picked(line, parts) {
        curve.record_with(line, || key_of(alloc, line))?;
    }
    Ok(())
}

/// Returns the line as a key.
fn key_of(alloc: Global, line: &[u8]) -> Result<Vec<u8>, AllocError>
    ensures { IfOk result (λ key. key.items ≡ line.now) }
{
    line.to_vec(alloc)
}

/// Prints the progress.
fn tell(rt: &impl Eprint, lines: u64, keys: usize) {
    let _ = eprintln!(rt; "misscurve: {lines} lines, {keys} keys");
}

/// Returns whether the key is in the part that is read. This depends only on its bytes.
fn is_picked(key: &[u8], parts: u64) -> bool
    ensures { result ≡ is_picked parts key.now }
{
    parts <= 1 || mixed(key) % parts == 0
}

/// Returns a number that spreads over the keys: the bytes are multiplied in, and then the high bits are mixed
/// into the low ones.
fn mixed(key: &[u8]) -> u64
    ensures { result ≡ mixed key.now }
{
    let mut sum = 0xcbf2_9ce4_8422_2325u64;
    for byte in key {
        sum = (sum ^ *byte as u64).wrapping_mul(0x0000_0100_0000_01b3);
    }
    sum = (sum ^ (sum >> 33)).wrapping_mul(0xff51_afd7_ed55_8ccd);
    sum ^ (sum >> 33)
}
