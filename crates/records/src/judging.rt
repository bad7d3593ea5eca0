//! Whether records are the weights of a graph.

ghost use Rattle.std.specs.Prelude.{◌≡◌, ℕ, ◌+◌, ◌*◌, ◌^◌, ◌<◌, ◌≤◌, length};
ghost use Rattle.refusal.specs.Reports.{answer};
ghost use Rattle.graph.specs.Graphs.{AllWithin, Within};
ghost use Rattle.graph.specs.Shapes.{shape_of};
ghost use Rattle.records.specs.Formats.{format, value_at, bytes_in};
ghost use Rattle.records.specs.Verdicts.{bounded, bytes_fit, edge_bytes_fit, first_refusal, value_verdict, vertex_verdict, ends_verdict, table_verdict, records_verdict};

use crate::decoding::decode_at;
use graph::{Edge, Graph};
use lattice::{Kind, Stored};
use refusal::Refusal;

/// Judges the record of vertex i.
fn judge_vertex<K: Stored>(bytes: &[u8], i: usize) -> Result<(), Refusal>
    ensures { answer result ≡ value_verdict i (K.Stored.parsed bytes.now) }
{
    K::decode(bytes).ok_or(Refusal::NotAValue(i))?;
    Ok(())
}

/// Judges each vertex record, first to last.
fn judge_vertices<K: Stored>(records: &[u8]) -> Result<(), Refusal>
    ensures { (n : ℕ) → length records.now ≡ n * K.Stored.WIDTH → answer result ≡ first_refusal (vertex_verdict (format K.Stored.WIDTH K.Stored.parsed) records.now) n }
{
    for (i, record) in records.chunks_exact(K::record_size()).enumerate() {
        judge_vertex::<K>(record, i)?;
    }
    Ok(())
}

/// Whether the weight is below the other, where there is one.
fn is_bounded<K: Kind>(weight: K, bound: Option<K>) -> bool
    ensures { result ≡ bounded K.Kind.leq weight bound }
{
    bound.is_none_or(|bound| weight.is_below(bound))
}

// The lengths of records are clauses and no type of their own, since each is tied to the length of another argument: a type would keep
// a count beside its bytes, and each clause would say that this count is the other length.

/// Judges the record of edge j, in a graph with n vertices.
fn judge_edge<K: Stored>(
    n: usize,
    edge: Edge,
    j: usize,
    vertex_records: &[u8],
    bytes: &[u8],
) -> Result<(), Refusal>
    requires within { Within n edge }
    requires few { n + j < 2 ^ 64 }
    requires vertices { length vertex_records.now ≡ n * K.Stored.WIDTH }
    ensures { answer result ≡ ends_verdict K.Kind.leq n j (value_at (format K.Stored.WIDTH K.Stored.parsed) vertex_records.now edge.first) (value_at (format K.Stored.WIDTH K.Stored.parsed) vertex_records.now edge.second) (K.Stored.parsed bytes.now) }
{
    let weight = K::decode(bytes).ok_or(Refusal::NotAValue(n + j))?;
    let first = decode_at(vertex_records, edge.first as usize);
    let second = decode_at(vertex_records, edge.second as usize);
    if is_bounded(weight, first) && is_bounded(weight, second) {
        Ok(())
    } else {
        Err(Refusal::EdgeNotBelowEnds(j))
    }
}

/// Judges each edge record, first to last, in a graph with n vertices.
fn judge_edges<K: Stored>(
    n: usize,
    table: &[Edge],
    vertex_records: &[u8],
    edge_records: &[u8],
) -> Result<(), Refusal>
    requires within { AllWithin n table.now }
    requires few { n + length table.now < 2 ^ 64 }
    requires vertices { length vertex_records.now ≡ n * K.Stored.WIDTH }
    requires edges { length edge_records.now ≡ length table.now * K.Stored.WIDTH }
    ensures { answer result ≡ table_verdict K.Kind.leq (format K.Stored.WIDTH K.Stored.parsed) n table.now vertex_records.now edge_records.now }
{
    let records = edge_records.chunks_exact(K::record_size());
    for (j, (edge, record)) in table.iter().zip(records).enumerate() {
        judge_edge::<K>(n, *edge, j, vertex_records, record)?;
    }
    Ok(())
}

/// Whether the bytes are as many records as the count says.
pub(crate) fn is_whole<K: Stored>(count: usize, records: &[u8]) -> bool
    requires { count ≤ 4000000 }
    ensures { result ≡ bytes_fit count K.Stored.WIDTH records.now }
{
    records.len() == count * K::record_size()
}

/// Whether the bytes are as many records as the count says, or absent.
fn is_absent_or_whole<K: Stored>(count: usize, records: Option<&[u8]>) -> bool
    requires { count ≤ 4000000 }
    ensures { result ≡ edge_bytes_fit count K.Stored.WIDTH (bytes_in records.entry) }
{
    records.is_none_or(|records| is_whole::<K>(count, records))
}

/// Judges the records of a graph's weights: the lengths of both byte buffers, then each vertex record, then each edge record.
pub(crate) fn judge<K: Stored>(
    graph: &Graph,
    vertex_records: &[u8],
    edge_records: Option<&[u8]>,
) -> Result<(), Refusal>
    ensures { answer result ≡ records_verdict K.Kind.leq (format K.Stored.WIDTH K.Stored.parsed) (shape_of graph.now) vertex_records.now (bytes_in edge_records.entry) }
{
    let n = graph.order();
    let table = graph.edges();
    if !is_whole::<K>(n, vertex_records) || !is_absent_or_whole::<K>(table.len(), edge_records) {
        return Err(Refusal::ByteBufferLength);
    }
    judge_vertices::<K>(vertex_records)?;
    match edge_records {
        Some(edge_records) => judge_edges::<K>(n, table, vertex_records, edge_records),
        None => Ok(()),
    }
}
