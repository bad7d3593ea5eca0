ghost use Rattle.std.specs.Prelude.{◌≡◌, true, List, length, map, is_ok, if◌then◌else◌, None, MatchResult, OnOk};
ghost use Rattle.graph.specs.Files.{file_bytes, file_records};
ghost use Rattle.graph.specs.Graphs.{Sound};
ghost use Rattle.graph.specs.Rules.{FileJudged, Judged};
ghost use Rattle.graph.specs.Shapes.{shape, shape_of};
ghost use Rattle.graph.specs.Verdicts.{file_verdict, large, record_verdict, records_verdict, verdict};
ghost use Rattle.graph.specs.declared.edges.Edge.{Edge};
ghost use Rattle.refusal.specs.Reports.{answer};

use crate::edges::Edge;
use crate::graphs::Graph;
use crate::records::{Record, records_in};
use refusal::Refusal;

/// Judges record k, which comes after the record `last`, if there is one.
fn check_record(n: usize, k: usize, last: Option<Edge>, e: Edge) -> Result<(), Refusal>
    ensures { answer result ≡ record_verdict n k last e }
{
    if e.first >= e.second {
        return Err(Refusal::EndsNotRising(k));
    }
    if e.second as usize >= n {
        return Err(Refusal::EndOutOfRange(k));
    }
    match last {
        Some(b) if !b.is_before(e) => Err(Refusal::RecordsNotRising(k)),
        _ => Ok(()),
    }
}

/// Judges every record, first to last.
fn check_records<R: Record>(n: usize, records: &[R]) -> Result<(), Refusal>
    ensures { answer result ≡ records_verdict n 0 None (map R.edge_of records.now) }
{
    let mut last = None;
    for (k, record) in records.iter().enumerate() {
        let e = record.edge();
        check_record(n, k, last, e)?;
        last = Some(e);
    }
    Ok(())
}

/// Writes every record to an edge table.
fn copy_records<R: Record>(records: &[R], table: &mut [Edge])
    requires { length table.old ≡ length records.now }
    ensures { table.new ≡ map R.edge_of records.now }
{
    // Each record is read by its place, since no proof is found of what a loop over a zip with `iter_mut` leaves in the table.
    for (k, row) in table.iter_mut().enumerate() {
        *row = records[k].edge();
    }
}

/// Whether there are too many vertices or edges.
fn too_large(n: usize, m: usize) -> bool
    ensures { result ≡ large n m }
{
    n > 1_000_000 || m > 4_000_000
}

/// Judges an edge table for a graph with n vertices.
fn check_table(n: usize, edges: &[Edge]) -> Result<(), Refusal>
    ensures { answer result ≡ verdict n edges.now }
{
    if too_large(n, edges.len()) {
        return Err(Refusal::GraphTooLarge);
    }
    check_records(n, edges)
}

/// Judges the bytes of a graph file with n vertices, whose edges are to go to a table of m rows.
fn check_bytes(n: usize, bytes: &[u8], m: usize) -> Result<(), Refusal>
    ensures { answer result ≡ file_verdict n bytes.now m }
{
    if bytes.len() % 8 != 0 {
        return Err(Refusal::PartialEdgeRecord);
    }
    let records = records_in(bytes);
    if too_large(n, records.len()) {
        return Err(Refusal::GraphTooLarge);
    }
    if m != records.len() {
        return Err(Refusal::EdgeTableLength);
    }
    check_records(n, records)
}

/// Judges an edge table: the answer is the right one, and an accepted table is that of a graph.
fn accept_table(n: usize, edges: &[Edge]) -> Result<(), Refusal>
    ensures verdict { answer result ≡ verdict n edges.now }
    ensures judged { Judged n edges.now (answer result) }
    ensures sound { OnOk result (Sound n edges.now) }
{
    check_table(n, edges)
}

/// Judges the bytes of a graph file: the answer is the right one.
fn accept_bytes(n: usize, bytes: &[u8], m: usize) -> Result<(), Refusal>
    ensures verdict { answer result ≡ file_verdict n bytes.now m }
    ensures judged { FileJudged n bytes.now m (answer result) }
    ensures read_back { (es : List Edge) → bytes.now ≡ file_bytes es → file_records bytes.now ≡ es }
{
    check_bytes(n, bytes, m)
}

/// Judges an edge table and, where it makes a graph with `n` vertices, puts that graph into the place.
///
/// It refuses more than 1,000,000 vertices or 4,000,000 edges ([`Refusal::GraphTooLarge`]). Then it judges record by record, each
/// by three rules in turn: the first end is under the second ([`Refusal::EndsNotRising`]), the second is under `n`
/// ([`Refusal::EndOutOfRange`]), and the record is above the one before it ([`Refusal::RecordsNotRising`]). After a refusal the place
/// is as it was.
pub fn judge<'a>(place: &mut Graph<'a>, n: usize, edges: &'a [Edge]) -> Result<(), Refusal>
    ensures verdict { answer result ≡ verdict n edges.now }
    ensures judged { Judged n edges.now (answer result) }
    ensures filled { MatchResult result (λ _. shape_of place.new ≡ shape n edges.now) (λ _. place.new ≡ place.old) }
{
    accept_table(n, edges)?;
    *place = Graph { n, edges };
    Ok(())
}

/// Checks the bytes of a graph file and, where they make a graph with `n` vertices, writes its edges to the table.
///
/// A file is records of 8 bytes with no header: the two ends of an edge as unsigned 32-bit numbers, low byte first. It is refused where
/// its length is no multiple of 8 ([`Refusal::PartialEdgeRecord`]), where there are too many vertices or records
/// ([`Refusal::GraphTooLarge`]), where the table has not one row for each record ([`Refusal::EdgeTableLength`]), and then record by
/// record as [`judge`] does. After a refusal the table is as it was.
pub fn check_file(n: usize, bytes: &[u8], table: &mut [Edge]) -> Result<(), Refusal>
    ensures verdict { answer result ≡ file_verdict n bytes.now (length table.old) }
    ensures judged { FileJudged n bytes.now (length table.old) (answer result) }
    ensures written { table.new ≡ (if is_ok result then file_records bytes.now else table.old) }
    ensures read_back { (es : List Edge) → bytes.now ≡ file_bytes es → is_ok result ≡ true → table.new ≡ es }
{
    accept_bytes(n, bytes, table.len())?;
    copy_records(records_in(bytes), table);
    Ok(())
}
