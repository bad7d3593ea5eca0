// Records from sheets, and back.

use crate::support::*;
use filters::{Family, Weights, WeightsMut};
use graph::Edge;
use lattice::*;
use path_sheet::{edge_records, edges, vertex_records};
use refusal::{Part, Refusal};
use sheet::{Refused, Sheet};
use std::test::Fail;

// Opens the path sheet and closes it with these weights and bytes. Where that is refused it closes the sheet that comes back
// with the weights of the path and other bytes.
fn close(
    rows: &[Edge],
    vertices: &[Level],
    edges: &[Level],
    vertex_bytes: &mut [u8],
    edge_bytes: &mut [u8],
    other_vertex_bytes: &mut [u8],
    other_edge_bytes: &mut [u8],
) -> Result<Answer, Refusal> {
    let graph = graph_of(5, rows);
    let (mut path_vertices, mut path_edges) = path_levels([0; 5], [0; 4]);
    let weights = WeightsMut {
        vertices: &mut path_vertices,
        edges: &mut path_edges,
    };
    let sheet = Sheet::open(&graph, &vertex_records(), edge_records(), weights)?;
    match sheet.close(Weights { vertices, edges }, vertex_bytes, edge_bytes) {
        Ok(()) => Ok(ACCEPTED),
        Err(Refused { sheet, why }) => {
            let weights = Weights {
                vertices: &path_vertices,
                edges: &path_edges,
            };
            sheet.close(weights, other_vertex_bytes, other_edge_bytes)?;
            Ok(Err(report(why)))
        }
    }
}

// What closing the path sheet with these weights answers, the bytes afterwards, and those of the sheet that came back.
fn closed<const N: usize, const M: usize, const B: usize, const C: usize>(
    vertices: [u16; N],
    edge_weights: [u16; M],
    bytes: ([u8; B], [u8; C]),
) -> Result<(Answer, ([u8; B], [u8; C]), ([u8; 10], [u8; 8])), Refusal> {
    let (mut vertex_bytes, mut edge_bytes) = bytes;
    let mut other_vertex_bytes = [9; 10];
    let mut other_edge_bytes = [9; 8];
    let answer = close(
        &edges(),
        &levels(vertices),
        &levels(edge_weights),
        &mut vertex_bytes,
        &mut edge_bytes,
        &mut other_vertex_bytes,
        &mut other_edge_bytes,
    )?;
    Ok((
        answer,
        (vertex_bytes, edge_bytes),
        (other_vertex_bytes, other_edge_bytes),
    ))
}

const PATH_EDGE_RECORDS: [u8; 8] = [2, 0, 2, 0, 7, 0, 1, 0];

// A weight buffer of wrong length is refused before bytes of wrong length. No byte changes, and the sheet comes back.
#[test]
fn refused_weights(rt: HostRuntime) -> Result<(), Fail> {
    let back = (vertex_records(), PATH_EDGE_RECORDS);
    let bytes = ([9; 10], [9; 8]);
    let unchanged = (refused(7, 0, Part::Sheet), bytes, back);
    assert_eq!(rt; closed([1; 4], [1; 4], bytes)?, unchanged);
    assert_eq!(rt; closed([1; 5], [1; 5], bytes)?, unchanged);
    let bytes = ([9; 9], [9; 8]);
    let unchanged = (refused(7, 0, Part::Sheet), bytes, back);
    assert_eq!(rt; closed([1; 5], [1; 3], bytes)?, unchanged);
    Ok(())
}

#[test]
fn refused_bytes(rt: HostRuntime) -> Result<(), Fail> {
    let back = (vertex_records(), PATH_EDGE_RECORDS);
    let bytes = ([9; 9], [9; 8]);
    let unchanged = (refused(8, 0, Part::Sheet), bytes, back);
    assert_eq!(rt; closed([1; 5], [1; 4], bytes)?, unchanged);
    let bytes = ([9; 10], [9; 9]);
    let unchanged = (refused(8, 0, Part::Sheet), bytes, back);
    assert_eq!(rt; closed([1; 5], [1; 4], bytes)?, unchanged);
    Ok(())
}

// The bytes of these weights, low byte first.
#[test]
fn records(rt: HostRuntime) -> Result<(), Fail> {
    let mut vertex_bytes = [9; 10];
    let mut edge_bytes = [9; 8];
    let answer = close(
        &edges(),
        &levels([5, 258, 65535, 7, 256]),
        &levels([0, 1, 513, 1]),
        &mut vertex_bytes,
        &mut edge_bytes,
        &mut [],
        &mut [],
    )?;
    assert_eq!(rt; answer, ACCEPTED);
    assert_eq!(rt; vertex_bytes, [5, 0, 2, 1, 255, 255, 7, 0, 0, 1]);
    assert_eq!(rt; edge_bytes, [0, 0, 1, 0, 1, 2, 1, 0]);
    Ok(())
}

// Dilates the path sheet once, closes it, and opens another sheet from what was written.
fn reopened(
    rows: &[Edge],
) -> Result<(([Level; 5], [Level; 4]), ([Level; 5], [Level; 4])), Refusal> {
    let graph = graph_of(5, rows);
    let (mut vertices, mut edges) = path_levels([0; 5], [0; 4]);
    let (mut vertex_scratch, mut edge_scratch) = path_levels([3; 5], [3; 4]);
    let weights = WeightsMut {
        vertices: &mut vertices,
        edges: &mut edges,
    };
    let sheet = Sheet::open(&graph, &vertex_records(), None, weights)?;
    let weights = WeightsMut {
        vertices: &mut vertices,
        edges: &mut edges,
    };
    let scratch = WeightsMut {
        vertices: &mut vertex_scratch,
        edges: &mut edge_scratch,
    };
    sheet.step(filter(Family::Dilation, 1), weights, scratch)?;
    let mut vertex_bytes = [0; 10];
    let mut edge_bytes = [0; 8];
    let weights = Weights {
        vertices: &vertices,
        edges: &edges,
    };
    sheet.close(weights, &mut vertex_bytes, &mut edge_bytes)?;
    let (mut others, mut other_edges) = path_levels([0; 5], [0; 4]);
    let weights = WeightsMut {
        vertices: &mut others,
        edges: &mut other_edges,
    };
    Sheet::open(&graph, &vertex_bytes, Some(&edge_bytes), weights)?;
    Ok(((vertices, edges), (others, other_edges)))
}

#[test]
fn closed_and_opened_again(rt: HostRuntime) -> Result<(), Fail> {
    let (before, after) = reopened(&edges())?;
    assert_eq!(rt; before, path_levels([5, 7, 7, 7, 7], [2, 7, 7, 7]));
    assert_eq!(rt; after, before);
    Ok(())
}
