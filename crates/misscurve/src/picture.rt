//! The curve as a picture.
use crate::report::{WHOLE, ratio_of};
use hashlink_curve::MissCurve;
use std::hash::{BuildHasher, Hash};
use std::io::{self, Write};

/// How many units to the right a doubled capacity is.
const OCTAVE: u64 = 64;

/// How many units each sixteenth of an octave is from the start of the octave.
const STEPS: [u64; 16] = [0, 6, 11, 16, 21, 25, 29, 34, 37, 41, 45, 48, 52, 55, 58, 61];

/// The height of the picture.
const HEIGHT: u64 = 400;

/// Returns the horizontal position of a capacity.
fn across(capacity: u64) -> u64 {
    let mut power = 1u64;
    let mut start = 0u64;
    for _ in 0..63 {
        if power > capacity / 2 {
            break;
        }
        power = power.saturating_mul(2);
        start = start.saturating_add(OCTAVE);
    }
    let sixteenths = capacity
        .saturating_sub(power)
        .saturating_mul(16)
        .checked_div(power);
    let step = STEPS.get(sixteenths.unwrap_or(0).min(15) as usize).copied();
    start.saturating_add(step.unwrap_or(0))
}

/// Returns the vertical position of a ratio.
fn down(ratio: u64) -> u64 {
    HEIGHT.saturating_sub(ratio.saturating_mul(HEIGHT) / WHOLE)
}

/// Writes the picture: the capacity to the right, doubled at each line, and the ratio of misses upwards. The
/// dashed line is at the ratio of the first uses of keys, which every cache misses. If only a part of the
/// keys was read, each number except the ratios is multiplied by the number of parts.
pub fn write_picture<W: Write, K: Eq + Hash, S: BuildHasher>(
    writer: &mut W,
    curve: &MissCurve<K, S>,
    parts: u64,
) -> io::Result<()> {
    let accesses = curve.accesses();
    let uses = accesses.saturating_mul(parts);
    let keys = (curve.distinct() as u64).saturating_mul(parts);
    let width = across(keys).saturating_add(OCTAVE);
    write_head(writer, width, uses, keys, note(parts))?;
    write_lines(writer, width)?;
    write_axes(writer, width)?;
    let cold = down(ratio_of(curve.distinct() as u64, accesses));
    let first = down(ratio_of(accesses, accesses));
    write!(
        writer,
        "<path d=\"M0 {cold}H{width}\" stroke=\"red\" stroke-dasharray=\"4\" fill=\"none\"/>\n\
         <path d=\"M0 {first}"
    )?;
    for (capacity, misses) in curve.falls() {
        let x = across((capacity as u64).saturating_mul(parts));
        write!(writer, "H{x}V{}", down(ratio_of(misses, accesses)))?;
    }
    writeln!(
        writer,
        "H{width}\" stroke=\"black\" stroke-width=\"2\" fill=\"none\"/>\n\
         </svg>"
    )?;
    writer.flush()
}

/// Returns the note of a picture that shows only some of the keys.
fn note(parts: u64) -> &'static str {
    if parts > 1 { ", an estimate" } else { "" }
}

/// Writes the size of the picture, its title and its background.
fn write_head<W: Write>(
    writer: &mut W,
    width: u64,
    uses: u64,
    keys: u64,
    note: &str,
) -> io::Result<()> {
    let right = width.saturating_add(90);
    writeln!(
        writer,
        "<svg xmlns=\"http://www.w3.org/2000/svg\" viewBox=\"-60 -30 {right} 480\" role=\"img\" \
         font-family=\"sans-serif\" font-size=\"11\">\n\
         <title>Misses of an LRU cache by its capacity: {uses} uses of {keys} keys{note}</title>\n\
         <rect x=\"-60\" y=\"-30\" width=\"100%\" height=\"100%\" fill=\"white\"/>\n\
         <text x=\"0\" y=\"-12\">misses of {uses} uses of {keys} keys{note}</text>"
    )
}

/// Writes the names of the axes.
fn write_axes<W: Write>(writer: &mut W, width: u64) -> io::Result<()> {
    let middle = width / 2;
    writeln!(
        writer,
        "<text x=\"{middle}\" y=\"438\" text-anchor=\"middle\">capacity, in keys</text>\n\
         <text transform=\"rotate(-90)\" x=\"-200\" y=\"-44\" text-anchor=\"middle\">misses, in percent \
         of the uses</text>"
    )
}

/// Writes the lines of the capacities that are powers of two, and of each quarter of the misses.
fn write_lines<W: Write>(writer: &mut W, width: u64) -> io::Result<()> {
    let mut capacity = 1u64;
    let mut x = 0u64;
    for _ in 0..63 {
        if x > width {
            break;
        }
        writeln!(
            writer,
            "<path d=\"M{x} 0V{HEIGHT}\" stroke=\"#ddd\"/>\n\
             <text x=\"{x}\" y=\"418\" text-anchor=\"middle\">{capacity}</text>"
        )?;
        capacity = capacity.saturating_mul(2);
        x = x.saturating_add(OCTAVE);
    }
    for percent in [0u64, 25, 50, 75, 100] {
        let y = down(percent * 100);
        writeln!(
            writer,
            "<path d=\"M0 {y}H{width}\" stroke=\"#ddd\"/>\n\
             <text x=\"-6\" y=\"{y}\" text-anchor=\"end\">{percent} %</text>"
        )?;
    }
    Ok(())
}
