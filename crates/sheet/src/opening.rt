//! Sheets from records, and back.

ghost use Rattle.std.specs.Prelude.{◌≡◌};
ghost use Rattle.graph.specs.Shapes.{shape_of};
ghost use Rattle.filters.specs.Weightings.{weights_in, weights_before, weights_after};
ghost use Rattle.records.specs.Calls.{loaded, load_call, bytes_of_both, stored, store_call};
ghost use Rattle.records.specs.Formats.{format, bytes_in};
ghost use Rattle.sheet.specs.States.{sheet_shape, opened, KeepsGraph, closed, HandsBack};

use crate::refused::Refused;
use crate::states::{Clear, Sheet};
use filters::{Weights, WeightsMut};
use graph::Graph;
use lattice::{Kind, Stored};
use records::{load, store};
use refusal::Refusal;

impl<'g, 'e, K: Stored> Sheet<'g, 'e, K, Clear> {
    /// Fills the weight buffers from byte records and gives a Clear sheet. With no edge records each edge gets the meet of the
    /// weights of its ends.
    ///
    /// Refused as [`records::load`] refuses: a weight buffer of wrong length (7), a byte buffer of wrong length (8), then record
    /// by record one that is no value (9) or an edge that is not below both its ends (10); then every buffer is as it was.
    pub fn open(
        graph: &'g Graph<'e>,
        vertex_records: &[u8],
        edge_records: Option<&[u8]>,
        weights: WeightsMut<'_, '_, K>,
    ) -> Result<Sheet<'g, 'e, K, Clear>, Refusal>
        ensures buffers { loaded (opened result) (weights_after weights.exit) ≡ load_call K.Kind.operations K.Kind.leq (format K.Stored.WIDTH K.Stored.parsed) (shape_of graph.now) vertex_records.now (bytes_in edge_records.entry) (weights_before weights.entry) }
        ensures sheet { KeepsGraph graph.entry result }
    {
        // Taken apart first, since a parameter that holds a `&mut` slice cannot be passed on to a call.
        let WeightsMut { vertices, edges } = weights;
        load(
            graph,
            vertex_records,
            edge_records,
            WeightsMut { vertices, edges },
        )?;
        Ok(Sheet::on(graph))
    }

    /// Writes the weights as byte records and ends the sheet.
    ///
    /// Refused as [`records::store`] refuses: a weight buffer of wrong length (7), then a byte buffer of wrong length (8); then no
    /// byte changes, and the sheet comes back.
    pub fn close(
        self,
        weights: Weights<'_, '_, K>,
        vertex_records: &mut [u8],
        edge_records: &mut [u8],
    ) -> Result<(), Refused<Self>>
        ensures buffers { stored (closed result) (bytes_of_both vertex_records.new edge_records.new) ≡ store_call K.Stored.WIDTH K.Stored.written (sheet_shape self.entry) (weights_in weights.entry) (bytes_of_both vertex_records.old edge_records.old) }
        ensures sheet { HandsBack self.entry.graph result }
    {
        store(self.graph, weights, vertex_records, edge_records).map_err(|why| Refused {
            sheet: self,
            why,
        })
    }
}
