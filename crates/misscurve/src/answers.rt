//! The output for the given options.
ghost use Rattle.std.specs.Prelude.{◌≡◌};
ghost use Rattle.misscurve.specs.declared.options.Form.TheVariants.{Help};

use crate::faults::Fault;
use crate::options::{Form, Options};
use crate::picture::write_picture;
use crate::report::{write_help, write_table};
use crate::trace::curve_of;
use std::alloc::Global;
use std::hash::BuildHasher;
use std::io::{BufRead, Eprint, Write};

/// Writes what the options ask for, about the reader's trace. For help it reads nothing.
pub fn answer<B: BufRead, W: Write, S: BuildHasher + Drop>(
    rt: &impl Eprint,
    alloc: Global,
    options: Options,
    hash_builder: S,
    reader: &mut B,
    writer: &mut W,
) -> Result<(), Fault>
    ensures help { options.form ≡ Help → reader.new ≡ reader.old }
{
    if options.form == Form::Help {
        return write_help(writer).map_err(|_| Fault::Writing);
    }
    let curve = curve_of(rt, alloc, hash_builder, reader, options.parts)?;
    let written = match options.form {
        Form::Picture => write_picture(writer, &curve, options.parts),
        _ => write_table(writer, &curve, options),
    };
    written.map_err(|_| Fault::Writing)
}
