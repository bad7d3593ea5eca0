//! Weights from records.

ghost use Rattle.std.specs.Prelude.{◌≡◌, ◌↔◌};
ghost use Rattle.refusal.specs.Reports.{accepted, answer, Verdict};
ghost use Rattle.graph.specs.Shapes.{shape_of};
ghost use Rattle.filters.specs.Relations.{EdgesBelowEnds};
ghost use Rattle.filters.specs.Weightings.{weighting, weights_before, weights_after};
ghost use Rattle.records.specs.Formats.{format, bytes_in};
ghost use Rattle.records.specs.Calls.{loaded, load_call};
ghost use Rattle.records.specs.Rules.{Judged, Loadable};

use crate::decoding::decode_all;
use crate::judging::judge;
use filters::{WeightsMut, fits, meet_to_edges};
use graph::Graph;
use lattice::{Kind, Stored};
use refusal::Refusal;

/// Judges the records, and fills the buffers with the weights that they stand for.
fn load_into<K: Stored>(
    graph: &Graph,
    vertex_records: &[u8],
    edge_records: Option<&[u8]>,
    vertices: &mut [K],
    edges: &mut [K],
) -> Result<(), Refusal>
    ensures { loaded (answer result) (weighting vertices.new edges.new) ≡ load_call K.Kind.operations K.Kind.leq (format K.Stored.WIDTH K.Stored.parsed) (shape_of graph.now) vertex_records.now (bytes_in edge_records.entry) (weighting vertices.old edges.old) }
{
    if !fits(graph, vertices, edges) {
        return Err(Refusal::WeightBufferLength);
    }
    judge::<K>(graph, vertex_records, edge_records)?;
    decode_all(vertex_records, vertices);
    match edge_records {
        Some(edge_records) => {
            decode_all(edge_records, edges);
            Ok(())
        }
        None => meet_to_edges(graph, vertices, edges),
    }
}

/// Fills the weight buffers of a graph from byte records, the low byte of each first: one record after the other for each vertex,
/// and likewise for each edge. With no edge records each edge gets the meet of the weights of its ends.
///
/// It judges in this order, and before it writes anything:
///
/// - each weight buffer has one place for each vertex or edge ([`Refusal::WeightBufferLength`]);
/// - each byte buffer has one record for each vertex or edge ([`Refusal::ByteBufferLength`]);
/// - each vertex record, first to last, stands for a value ([`Refusal::NotAValue`] with its place);
/// - each edge record, first to last, stands for a value ([`Refusal::NotAValue`] with its place, counted on from the number of
///   vertices), and for one that is below the weights of both its ends ([`Refusal::EdgeNotBelowEnds`] with its place among the
///   edges). An edge passes both rules before the next is judged.
///
/// After a refusal both weight buffers are as they were.
pub fn load<K: Stored>(
    graph: &Graph,
    vertex_records: &[u8],
    edge_records: Option<&[u8]>,
    weights: WeightsMut<'_, '_, K>,
) -> Result<(), Refusal>
    ensures call { loaded (answer result) (weights_after weights.exit) ≡ load_call K.Kind.operations K.Kind.leq (format K.Stored.WIDTH K.Stored.parsed) (shape_of graph.now) vertex_records.now (bytes_in edge_records.entry) (weights_before weights.entry) }
    ensures accepted { (answer result ≡ accepted tt) ↔ (Loadable K.Kind.below (format K.Stored.WIDTH K.Stored.parsed) (shape_of graph.now) vertex_records.now (bytes_in edge_records.entry) (weights_before weights.entry)) }
    ensures judged { (a : Verdict) → (answer result ≡ a) ↔ (Judged K.Kind.below (format K.Stored.WIDTH K.Stored.parsed) (shape_of graph.now) vertex_records.now (bytes_in edge_records.entry) (weights_before weights.entry) a) }
    ensures bounded { answer result ≡ accepted tt → EdgesBelowEnds K.Kind.below (shape_of graph.now) (weights_after weights.exit) }
{
    // Taken apart before the call, since a parameter that holds `&mut` slices cannot be passed on to a call.
    let WeightsMut { vertices, edges } = weights;
    load_into(graph, vertex_records, edge_records, vertices, edges)
}
