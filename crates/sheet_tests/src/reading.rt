// Readings of sheets in both states.

use crate::support::*;
use filters::{Weights, WeightsMut};
use graph::{Edge, Graph};
use lattice::*;
use path_sheet::{edge_records, edges, vertex_records};
use readings::*;
use refusal::{Part, Refusal};
use sheet::Sheet;
use std::test::Fail;

// What a sheet of the path in either state answers to a cut at 5, and the images.
fn cut<S, const N: usize, const M: usize>(
    sheet: &Sheet<'_, '_, Level, S>,
    weights: Weights<'_, '_, Level>,
    before: ([Presence; N], [Presence; M]),
) -> Result<(Answer, ([Presence; N], [Presence; M])), Refusal> {
    let reading = LevelCut::new(Level::new(5))?;
    let (mut vertices, mut edges) = before;
    let images = WeightsMut {
        vertices: &mut vertices,
        edges: &mut edges,
    };
    let answer = sheet.read(&reading, weights, images).map_err(report);
    Ok((answer, (vertices, edges)))
}

// What the path sheet, opened on these rows and held, answers to a cut of these weights.
fn cuts<const N: usize, const M: usize>(
    rows: &[Edge],
    vertices: &[Level],
    edges: &[Level],
    before: ([Presence; N], [Presence; M]),
    before_holding: ([Presence; N], [Presence; M]),
) -> Result<[(Answer, ([Presence; N], [Presence; M])); 2], Refusal> {
    let graph = graph_of(5, rows);
    let (mut path_vertices, mut path_edges) = path_levels([0; 5], [0; 4]);
    let (mut held_vertices, mut held_edges) = path_levels([0; 5], [0; 4]);
    let weights = WeightsMut {
        vertices: &mut path_vertices,
        edges: &mut path_edges,
    };
    let sheet = Sheet::open(&graph, &vertex_records(), edge_records(), weights)?;
    let clear = cut(&sheet, Weights { vertices, edges }, before)?;
    let weights = Weights {
        vertices: &path_vertices,
        edges: &path_edges,
    };
    let held = WeightsMut {
        vertices: &mut held_vertices,
        edges: &mut held_edges,
    };
    let sheet = sheet.hold(weights, held)?;
    let holding = cut(&sheet, Weights { vertices, edges }, before_holding)?;
    Ok([clear, holding])
}

#[test]
fn in_both_states(rt: HostRuntime) -> Result<(), Fail> {
    let image = (ACCEPTED, path_presences([1, 0, 1, 1, 0], [0, 0, 1, 0]));
    assert_eq!(rt;
        cuts(
            &edges(),
            &levels([5, 2, 7, 7, 1]),
            &levels([2, 2, 7, 1]),
            path_presences([0, 1, 0, 1, 0], [1; 4]),
            path_presences([1, 1, 1, 1, 1], [0; 4]),
        )?,
        [image, image]
    );
    Ok(())
}

#[test]
fn wrong_lengths(rt: HostRuntime) -> Result<(), Fail> {
    let unchanged = (refused(7, 0, Part::Sheet), path_presences([1; 5], [0; 4]));
    let before = path_presences([1; 5], [0; 4]);
    assert_eq!(rt;
        cuts(&edges(), &levels([5; 4]), &levels([2; 4]), before, before)?,
        [unchanged, unchanged]
    );
    assert_eq!(rt;
        cuts(&edges(), &levels([5; 5]), &levels([2; 5]), before, before)?,
        [unchanged, unchanged]
    );
    let before = (presences([1; 6]), presences([0; 4]));
    let unchanged = (refused(7, 0, Part::Sheet), before);
    assert_eq!(rt;
        cuts(&edges(), &levels([5; 5]), &levels([2; 4]), before, before)?,
        [unchanged, unchanged]
    );
    Ok(())
}

#[test]
fn image_edges_of_wrong_length(rt: HostRuntime) -> Result<(), Fail> {
    let before = (presences([1; 5]), presences([0; 3]));
    let unchanged = (refused(7, 0, Part::Sheet), before);
    assert_eq!(rt;
        cuts(&edges(), &levels([5; 5]), &levels([2; 4]), before, before)?,
        [unchanged, unchanged]
    );
    Ok(())
}
