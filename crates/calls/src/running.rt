//! Recipe texts, run on the weights of a graph.

ghost use Rattle.std.specs.Prelude.{◌≡◌, true};
ghost use Rattle.refusal.specs.Reports.{answer};
ghost use Rattle.graph.specs.Shapes.{shape_of};
ghost use Rattle.filters.specs.Weightings.{weighting, Fits, blank, weights_before, weights_after};
ghost use Rattle.recipe.specs.Contents.{recipe_words};
ghost use Rattle.recipe.specs.Legal.{size_fits};
ghost use Rattle.stories.specs.Calls.{ran, run_call};
ghost use Rattle.stories.specs.Words.{word_done, nothing, done};

use crate::progress::Progress;
use crate::releases::{make_lowest, release};
use filters::{Joins, Meets, WeightsMut, fits};
use graph::Graph;
use lattice::Kind;
use recipe::{Recipe, Word};
use refusal::Refusal;

/// The weights of a graph as a run changes them, with scratch and held buffers, all as long as the graph asks.
#[derive(Drop)]
struct Run<'g, 'w, K> {
    graph: Graph<'g>,
    vertices: &'w mut [K],
    edges: &'w mut [K],
    vertex_scratch: &'w mut [K],
    edge_scratch: &'w mut [K],
    held_vertices: &'w mut [K],
    held_edges: &'w mut [K],
    ghost weights_fit: { Fits (shape_of graph) (weighting vertices.now edges.now) },
    ghost scratch_fits: { Fits (shape_of graph) (weighting vertex_scratch.now edge_scratch.now) },
    ghost held_fits: { Fits (shape_of graph) (weighting held_vertices.now held_edges.now) },
}

impl<K: Kind> Run<'_, '_, K> {
    ghost use Rattle.calls.specs.Runs.{SamePlaces, pair_of, scratch_of};

    /// Does one word.
    fn do_word(&mut self, word: Word)
        requires { size_fits word ≡ true }
        ensures places { SamePlaces self.old self.new }
        ensures words { pair_of self.new ≡ word_done K.operations (shape_of self.old.graph) word (pair_of self.old) }
    {
        // A match, since words are data that a text brings: a closure for each would say no more than its arm.
        match word {
            Word::Step(filter) => {
                let graph = self.graph;
                let weights = WeightsMut {
                    vertices: self.vertices,
                    edges: self.edges,
                };
                let scratch = WeightsMut {
                    vertices: self.vertex_scratch,
                    edges: self.edge_scratch,
                };
                let _ = filter.apply(&graph, weights, scratch);
            }
            Word::Hold => {
                // Lent by `&mut`, since after a `&` nothing is known of what a field holds.
                let vertices = &mut *self.vertices;
                let edges = &mut *self.edges;
                self.held_vertices.copy_from_slice(vertices);
                self.held_edges.copy_from_slice(edges);
            }
            Word::Join => release::<Joins, K>(
                self.vertices,
                self.edges,
                self.held_vertices,
                self.held_edges,
            ),
            Word::Meet => release::<Meets, K>(
                self.vertices,
                self.edges,
                self.held_vertices,
                self.held_edges,
            ),
            Word::Forget => make_lowest(self.held_vertices, self.held_edges),
        }
    }

    /// Does the words of a recipe in order, tells after each how many are done, and clears scratch and held buffers.
    fn do_recipe<P: Progress>(&mut self, recipe: &Recipe, progress: &mut P)
        ensures places { SamePlaces self.old self.new }
        ensures weights { (pair_of self.new).weights ≡ done K.operations (shape_of self.old.graph) (recipe_words recipe.now) (pair_of self.old).weights nothing }
        ensures scratch { scratch_of self.new ≡ blank K.operations (scratch_of self.old) }
        ensures held { (pair_of self.new).held ≡ blank K.operations (pair_of self.old).held }
    {
        let words = recipe.words();
        for (i, word) in words.iter().enumerate() {
            self.do_word(*word);
            progress.word_done(i + 1, words.len());
        }
        make_lowest(self.vertex_scratch, self.edge_scratch);
        make_lowest(self.held_vertices, self.held_edges);
    }
}

/// Runs a recipe text on the weights, writes the recipe to its place, and tells after each word how many are done. Scratch and held
/// buffers may hold anything; they are all lowest afterwards.
///
/// Refused where a buffer has the wrong length (7), then as [`Recipe::read`] refuses the text; then every buffer and the place are as
/// they were.
pub fn run_recipe<K: Kind, P: Progress>(
    graph: &Graph,
    text: &[u8],
    place: &mut Recipe,
    weights: WeightsMut<'_, '_, K>,
    scratch: WeightsMut<'_, '_, K>,
    held: WeightsMut<'_, '_, K>,
    progress: &mut P,
) -> Result<(), Refusal>
    ensures { ran (answer result) (weights_after weights.exit) (weights_after scratch.exit) (weights_after held.exit) (recipe_words place.new) ≡ run_call K.operations (shape_of graph.now) text.now (weights_before weights.entry) (weights_before scratch.entry) (weights_before held.entry) (recipe_words place.old) }
{
    let WeightsMut { vertices, edges } = weights;
    let WeightsMut {
        vertices: vertex_scratch,
        edges: edge_scratch,
    } = scratch;
    let WeightsMut {
        vertices: held_vertices,
        edges: held_edges,
    } = held;
    let all_fit = fits(graph, vertices, edges)
        && fits(graph, vertex_scratch, edge_scratch)
        && fits(graph, held_vertices, held_edges);
    if !all_fit {
        return Err(Refusal::WeightBufferLength);
    }
    let recipe = Recipe::read(text)?;
    let mut run = Run {
        graph: *graph,
        vertices,
        edges,
        vertex_scratch,
        edge_scratch,
        held_vertices,
        held_edges,
    };
    run.do_recipe(&recipe, progress);
    *place = recipe;
    Ok(())
}
