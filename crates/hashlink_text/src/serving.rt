ghost use Rattle.std.specs.Prelude.{◌≡◌, ◌≢◌, IfOk, IfErr, OnOk, IfSome, IsErrOf};
ghost use Rattle.std.specs.Io.KnownBytes.{Appends, IsAtEnd};
ghost use Rattle.hashlink_text.specs.Text.{AppendsTranscript};

use crate::faults::Fault;
use crate::text::run_text;
use std::alloc::Global;
use std::io::{ErrorKind, Read, Write};

/// Reads all of the reader's input, writes the answer of `run_text` to `writer`, and flushes.
///
/// The whole text and the whole answer are kept in memory. Whether a read, a write or an allocation fails
/// depends on the reader, the writer and the memory, and no clause states it.
pub fn serve<R: Read, W: Write>(alloc: Global, reader: &mut R, writer: &mut W) -> Result<(), Fault>
    // If the bytes of the reader and the writer are known, it writes an answer to all input, and nothing
    // else.
    ensures answer { OnOk result (IfSome (R.remaining reader.old)
        (AppendsTranscript (W.contents writer.old) (W.contents writer.new))) }
    ensures end { OnOk result (IsAtEnd (R.remaining reader.new)) }
    // Nothing is written before the answer is complete.
    ensures reading { IsErrOf result Fault.Reading → writer.new ≡ writer.old }
    ensures memory { IsErrOf result Fault.Memory → writer.new ≡ writer.old }
    // If a write fails, all input was read.
    ensures writing { IsErrOf result Fault.Writing → IsAtEnd (R.remaining reader.new) }
{
    let input = read_all(alloc, reader)?;
    let answer = run_text(alloc, &input)?;
    write_all(writer, &answer)
}

// Returns all of the reader's input.
fn read_all<R: Read>(alloc: Global, reader: &mut R) -> Result<Vec<u8>, Fault>
    ensures input { IfOk result (λ input. IfSome (R.remaining reader.old)
        (λ bytes. input.items ≡ bytes)) }
    ensures end { OnOk result (IsAtEnd (R.remaining reader.new)) }
    ensures fault { IfErr result (λ fault. fault ≢ Fault.Writing) }
{
    let mut input = Vec::new(alloc);
    match reader.read_to_end(&mut input) {
        Ok(_) => Ok(input),
        Err(e) if e.kind() == ErrorKind::OutOfMemory => Err(Fault::Memory),
        Err(_) => Err(Fault::Reading),
    }
}

// Writes the bytes.
fn write_all<W: Write>(writer: &mut W, bytes: &[u8]) -> Result<(), Fault>
    ensures written { OnOk result (Appends (W.contents writer.old) (W.contents writer.new) bytes.now) }
    ensures fault { IfErr result (λ fault. fault ≡ Fault.Writing) }
{
    if writer.write_all(bytes).is_err() || writer.flush().is_err() {
        return Err(Fault::Writing);
    }
    Ok(())
}
