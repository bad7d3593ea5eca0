//! A sheet is Clear or Holding, and the two are different types.

ghost use Rattle.std.specs.Prelude.{◌≡◌};

use graph::Graph;
use std::marker::PhantomData;

/// The state of a sheet that holds nothing.
pub enum Clear {}

/// The state of a sheet with weights held beside its own.
pub enum Holding {}

/// A sheet of weights of the kind `K`, in the state `S`: [`Clear`] or [`Holding`].
///
/// It keeps its graph and no weights: every call is lent the buffers that it works on. A call that changes the state takes the
/// sheet and gives the other state, and a refused one hands the sheet back.
#[derive(Drop)]
pub struct Sheet<'g, 'e, K, S> {
    pub(crate) graph: &'g Graph<'e>,
    pub(crate) kind: PhantomData<K>,
    pub(crate) state: PhantomData<S>,
}

impl<'g, 'e, K, S> Sheet<'g, 'e, K, S> {
    /// The graph that the sheet keeps.
    pub fn graph(&self) -> &'g Graph<'e>
        ensures { result ≡ self.now.graph }
    {
        self.graph
    }

    /// The same sheet in another state.
    pub(crate) fn into_state<T>(self) -> Sheet<'g, 'e, K, T>
        ensures { result.graph ≡ self.entry.graph }
    {
        let Sheet {
            graph,
            kind,
            state: _,
        } = self;
        Sheet {
            graph,
            kind,
            state: PhantomData,
        }
    }
}

impl<'g, 'e, K> Sheet<'g, 'e, K, Clear> {
    /// A clear sheet of a graph.
    pub(crate) fn on(graph: &'g Graph<'e>) -> Sheet<'g, 'e, K, Clear>
        ensures { result.graph ≡ graph.entry }
    {
        Sheet {
            graph,
            kind: PhantomData,
            state: PhantomData,
        }
    }
}
