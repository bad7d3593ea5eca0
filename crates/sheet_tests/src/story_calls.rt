// The calls of a story, made on a sheet in the state that the calls before it left.

use crate::buffers::*;
use crate::support::*;
use filters::{Filter, Weights, WeightsMut};
use lattice::Kind;
use recipe::Recipe;
use sheet::{Clear, Holding, Refused, Sheet};

// A call. There are two texts to run, the one and the other. Kept beside the calls, since the length of a story
// is a const parameter, and the borrow checker does not cover an array of such a length where it holds references.
#[derive(Clone, Copy)]
pub enum Call {
    Step(Filter),
    Hold,
    Join,
    Meet,
    Forget,
    Run,
    RunOther,
}

#[derive(Drop)]
pub enum State<'g, 'e, K> {
    Clear(Sheet<'g, 'e, K, Clear>),
    Holding(Sheet<'g, 'e, K, Holding>),
}

// The answer to a call that the state does not take.
pub const NOT_TAKEN: Answer = Err(Why::NotTaken);

fn call_clear<'g, 'e, K: Kind>(
    sheet: Sheet<'g, 'e, K, Clear>,
    call: Call,
    short: Option<Short>,
    text: &[u8],
    place: &mut Recipe,
    buffers: &mut Buffers<K>,
) -> (State<'g, 'e, K>, Answer) {
    let Buffers {
        weights,
        scratch,
        held,
    } = buffers;
    match call {
        Call::Step(filter) => {
            let answer = sheet.step(
                filter,
                weights.lend(short, Short::Vertices, Short::Edges),
                scratch.lend(short, Short::VertexScratch, Short::EdgeScratch),
            );
            (State::Clear(sheet), answer.map_err(report))
        }
        Call::Hold => {
            let WeightsMut { vertices, edges } = weights.lend(short, Short::Vertices, Short::Edges);
            match sheet.hold(
                Weights { vertices, edges },
                held.lend(short, Short::HeldVertices, Short::HeldEdges),
            ) {
                Ok(sheet) => (State::Holding(sheet), ACCEPTED),
                Err(Refused { sheet, why }) => (State::Clear(sheet), Err(report(why))),
            }
        }
        Call::Run | Call::RunOther => {
            let answer = sheet.run(
                text,
                place,
                weights.lend(short, Short::Vertices, Short::Edges),
                scratch.lend(short, Short::VertexScratch, Short::EdgeScratch),
                held.lend(short, Short::HeldVertices, Short::HeldEdges),
            );
            (State::Clear(sheet), answer.map_err(report))
        }
        _ => (State::Clear(sheet), NOT_TAKEN),
    }
}

fn call_holding<'g, 'e, K: Kind>(
    sheet: Sheet<'g, 'e, K, Holding>,
    call: Call,
    short: Option<Short>,
    buffers: &mut Buffers<K>,
) -> (State<'g, 'e, K>, Answer) {
    let Buffers {
        weights,
        scratch,
        held,
    } = buffers;
    let weights = weights.lend(short, Short::Vertices, Short::Edges);
    let held = held.lend(short, Short::HeldVertices, Short::HeldEdges);
    let released = match call {
        Call::Step(filter) => {
            let answer = sheet.step(
                filter,
                weights,
                scratch.lend(short, Short::VertexScratch, Short::EdgeScratch),
            );
            return (State::Holding(sheet), answer.map_err(report));
        }
        Call::Join => sheet.join(weights, held),
        Call::Meet => sheet.meet(weights, held),
        Call::Forget => {
            let WeightsMut { vertices, edges } = weights;
            sheet.forget(Weights { vertices, edges }, held)
        }
        _ => return (State::Holding(sheet), NOT_TAKEN),
    };
    match released {
        Ok(sheet) => (State::Clear(sheet), ACCEPTED),
        Err(Refused { sheet, why }) => (State::Holding(sheet), Err(report(why))),
    }
}

// Makes a call, with one of the buffers a place too short or with all as they are.
pub(crate) fn make_call<'g, 'e, K: Kind>(
    state: State<'g, 'e, K>,
    call: Call,
    short: Option<Short>,
    text: &[u8],
    place: &mut Recipe,
    buffers: &mut Buffers<K>,
) -> (State<'g, 'e, K>, Answer) {
    match state {
        State::Clear(sheet) => call_clear(sheet, call, short, text, place, buffers),
        State::Holding(sheet) => call_holding(sheet, call, short, buffers),
    }
}
