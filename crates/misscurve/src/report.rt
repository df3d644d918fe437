//! The curve as a table.
use crate::options::{Form, Options};
use hashlink_curve::MissCurve;
use std::hash::{BuildHasher, Hash};
use std::io::{self, Write};

/// A ratio of misses is given as a number out of this many accesses.
pub const WHOLE: u64 = 10000;

/// Returns how many of `WHOLE` accesses are misses.
pub fn ratio_of(misses: u64, accesses: u64) -> u64 {
    match misses.checked_mul(WHOLE) {
        Some(product) => product.checked_div(accesses).unwrap_or(0).min(WHOLE),
        None => misses.checked_div(accesses / WHOLE).unwrap_or(0).min(WHOLE),
    }
}

/// Writes the help text.
pub fn write_help<W: Write>(writer: &mut W) -> io::Result<()> {
    writeln!(
        writer,
        "misscurve [--all | --svg] [--sample 1/N] < TRACE\n\
         Reads a key a line, and writes how often an LRU cache of each capacity misses.\n\
         \x20 --all         each capacity at which the misses fall\n\
         \x20 --svg         a picture\n\
         \x20 --sample 1/N  an estimate from one key in N, each number times N\n\
         \x20 --help        this text, and nothing is read"
    )?;
    writer.flush()
}

/// Writes the table. If only a part of the keys was read, each number except the ratios is multiplied by the
/// number of parts.
pub fn write_table<W: Write, K: Eq + Hash, S: BuildHasher>(
    writer: &mut W,
    curve: &MissCurve<K, S>,
    options: Options,
) -> io::Result<()> {
    if options.parts > 1 {
        writeln!(writer, "# an estimate from one key in {}", options.parts)?;
    }
    let accesses = curve.accesses();
    let uses = accesses.saturating_mul(options.parts);
    let keys = (curve.distinct() as u64).saturating_mul(options.parts);
    writeln!(
        writer,
        "# {uses} uses of {keys} keys\ncapacity misses ratio"
    )?;
    let mut row = Row {
        writer,
        accesses,
        parts: options.parts,
    };
    let mut before = accesses;
    let mut told = WHOLE;
    let mut power = 1usize;
    for (capacity, misses) in curve.falls() {
        for _ in 0..64 {
            if power >= capacity {
                break;
            }
            row.write(power, before)?;
            told = ratio_of(before, accesses);
            power = power.saturating_mul(2);
        }
        let ratio = ratio_of(misses, accesses);
        if options.form == Form::WholeTable
            || capacity == power
            || ratio.saturating_add(100) <= told
        {
            row.write(capacity, misses)?;
            told = ratio;
        }
        if capacity == power {
            power = power.saturating_mul(2);
        }
        before = misses;
    }
    row.writer.flush()
}

/// The writer of the table's lines, and what they are computed from.
#[derive(Drop)]
struct Row<'a, W: Write> {
    writer: &'a mut W,
    accesses: u64,
    parts: u64,
}

impl<'a, W: Write> Row<'a, W> {
    /// Writes the misses at a capacity, each multiplied by the number of parts.
    fn write(&mut self, capacity: usize, misses: u64) -> io::Result<()> {
        let ratio = ratio_of(misses, self.accesses);
        let places = (capacity as u64).saturating_mul(self.parts);
        let total = misses.saturating_mul(self.parts);
        writeln!(
            self.writer,
            "{places} {total} {}.{:04}",
            ratio / WHOLE,
            ratio % WHOLE
        )
    }
}
