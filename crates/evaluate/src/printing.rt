//! Weights as numbers.

ghost use Rattle.std.specs.Prelude.{◌≤◌};

use evaluation::{Evaluated, KindName};
use std::io;
use std::io::{BufWriter, Stdout, Write};

/// The number of a record, low byte first.
fn number_of(record: &[u8]) -> u32 {
    record
        .iter()
        .rev()
        .fold(0, |number, byte| (number << 8) | u32::from(*byte))
}

/// Writes the numbers of records on one line, one space between.
fn write_numbers(out: &mut BufWriter<Stdout>, records: &[u8], size: usize) -> io::Result<()>
    requires { 1 ≤ size }
{
    let mut records = records.chunks(size);
    if let Some(first) = records.next() {
        write!(out, "{}", number_of(first))?;
    }
    for record in records {
        write!(out, " {}", number_of(record))?;
    }
    writeln!(out)
}

/// Prints the vertex weights on one line and the edge weights on the next.
pub(crate) fn print_evaluated(
    rt: &HostRuntime,
    kind: KindName,
    evaluated: &Evaluated,
) -> io::Result<()> {
    let size = kind.record_width();
    let mut out = BufWriter::new(rt.alloc(), rt.stdout())?;
    write_numbers(&mut out, evaluated.vertex_records.as_slice(), size)?;
    write_numbers(&mut out, evaluated.edge_records.as_slice(), size)?;
    out.flush()
}
