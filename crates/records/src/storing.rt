//! Records from weights.

ghost use Rattle.std.specs.Prelude.{◌≡◌};
ghost use Rattle.refusal.specs.Reports.{accepted, answer};
ghost use Rattle.graph.specs.Shapes.{shape_of};
ghost use Rattle.filters.specs.Weightings.{weights_in};
ghost use Rattle.records.specs.Formats.{format};
ghost use Rattle.records.specs.Calls.{bytes_of_both, stored, store_call};
ghost use Rattle.records.specs.Rules.{StandFor, LoadsBack};

use crate::encoding::encode_all;
use crate::judging::is_whole;
use filters::{Weights, fits};
use graph::Graph;
use lattice::{Kind, Stored};
use refusal::Refusal;

/// Judges the lengths of the buffers, and writes the records of the weights.
fn store_from<K: Stored>(
    graph: &Graph,
    weights: Weights<'_, '_, K>,
    vertex_records: &mut [u8],
    edge_records: &mut [u8],
) -> Result<(), Refusal>
    ensures { stored (answer result) (bytes_of_both vertex_records.new edge_records.new) ≡ store_call K.Stored.WIDTH K.Stored.written (shape_of graph.now) (weights_in weights.entry) (bytes_of_both vertex_records.old edge_records.old) }
{
    let Weights { vertices, edges } = weights;
    if !fits(graph, vertices, edges) {
        return Err(Refusal::WeightBufferLength);
    }
    let n = graph.order();
    let m = graph.edges().len();
    if !is_whole::<K>(n, vertex_records) || !is_whole::<K>(m, edge_records) {
        return Err(Refusal::ByteBufferLength);
    }
    encode_all(vertices, vertex_records);
    encode_all(edges, edge_records);
    Ok(())
}

/// Writes the weights of a graph as byte records, the low byte of each first: one record after the other for each vertex, and
/// likewise for each edge. [`load`](crate::loading::load) reads them back as the same weights.
///
/// Refused where a weight buffer has not one place for each vertex or edge ([`Refusal::WeightBufferLength`]), then where a byte
/// buffer has not one record for each ([`Refusal::ByteBufferLength`]); then no byte changes.
pub fn store<K: Stored>(
    graph: &Graph,
    weights: Weights<'_, '_, K>,
    vertex_records: &mut [u8],
    edge_records: &mut [u8],
) -> Result<(), Refusal>
    ensures call { stored (answer result) (bytes_of_both vertex_records.new edge_records.new) ≡ store_call K.Stored.WIDTH K.Stored.written (shape_of graph.now) (weights_in weights.entry) (bytes_of_both vertex_records.old edge_records.old) }
    ensures vertices { answer result ≡ accepted tt → StandFor (format K.Stored.WIDTH K.Stored.parsed) vertex_records.new (weights_in weights.entry).vertices }
    ensures edges { answer result ≡ accepted tt → StandFor (format K.Stored.WIDTH K.Stored.parsed) edge_records.new (weights_in weights.entry).edges }
    ensures loads { answer result ≡ accepted tt → LoadsBack K.Kind.below K.Kind.operations K.Kind.leq (format K.Stored.WIDTH K.Stored.parsed) (shape_of graph.now) (bytes_of_both vertex_records.new edge_records.new) (weights_in weights.entry) }
{
    store_from(graph, weights, vertex_records, edge_records)
}
