// Stories of calls on the path sheet: the answer to each call, and what all buffers hold after it.

use crate::buffers::*;
use crate::story_calls::*;
use crate::support::*;
use filters::{Family, WeightsMut};
use graph::Edge;
use lattice::*;
use path_sheet::{VERTICES, edge_records, edges, vertex_records};
use readings::*;
use recipe::Recipe;
use refusal::{Part, Refusal};
use sheet::{Clear, Sheet};
use std::process::Abort;
use std::test::Fail;

// Makes the calls of a story, and writes each answer and what the buffers hold after it.
fn tell<K: Kind>(
    sheet: Sheet<'_, '_, K, Clear>,
    story: &[(Call, Option<Short>)],
    text: &[u8],
    other_text: &[u8],
    place: &mut Recipe,
    start: Buffers<K>,
    answers: &mut [Answer],
    after: &mut [Buffers<K>],
) {
    let mut current = start;
    let mut state = State::Clear(sheet);
    for (((call, short), answer), left) in story
        .iter()
        .zip(answers.iter_mut())
        .zip(after.iter_mut())
    {
        let run = match call {
            Call::RunOther => other_text,
            _ => text,
        };
        let (next, answered) = make_call(state, *call, *short, run, place, &mut current);
        state = next;
        *answer = answered;
        *left = current;
    }
}

// The answer to each call of a story on the sheet of these records, and the buffers after it. Scratch and held begin all highest.
fn trace<K: Stored, const R: usize>(
    rows: &[Edge],
    records: &[u8],
    story: [(Call, Option<Short>); R],
    text: &[u8],
    other_text: &[u8],
    place: &mut Recipe,
) -> Result<([Answer; R], [Buffers<K>; R]), Refusal> {
    let graph = graph_of(VERTICES, rows);
    let mut start = weights_alone(([K::lowest(); 5], [K::lowest(); 4]));
    let weights = WeightsMut {
        vertices: &mut start.weights.vertices,
        edges: &mut start.weights.edges,
    };
    let sheet = Sheet::open(&graph, records, edge_records(), weights)?;
    let mut answers = [NOT_TAKEN; R];
    let mut after = [start; R];
    tell(
        sheet,
        &story,
        text,
        other_text,
        place,
        start,
        &mut answers,
        &mut after,
    );
    Ok((answers, after))
}

// A story on the path sheet.
fn on_path<const R: usize>(
    story: [(Call, Option<Short>); R],
    text: &[u8],
    other_text: &[u8],
    place: &mut Recipe,
) -> Result<([Answer; R], [Buffers<Level>; R]), Refusal> {
    trace(&edges(), &vertex_records(), story, text, other_text, place)
}

// A story without runs on the path sheet.
fn answered<const R: usize>(
    story: [(Call, Option<Short>); R],
) -> Result<([Answer; R], [Buffers<Level>; R]), Refusal> {
    let mut place = Recipe::empty();
    on_path(story, b"", b"", &mut place)
}

// One run on the path sheet.
fn run(text: &[u8], short: Option<Short>) -> Result<(Answer, Buffers<Level>), Refusal> {
    let mut place = Recipe::empty();
    let ([answer], [after]) = on_path([(Call::Run, short)], text, b"", &mut place)?;
    Ok((answer, after))
}

fn start() -> ([Level; 5], [Level; 4]) {
    path_levels([5, 2, 7, 7, 1], [2, 2, 7, 1])
}

fn zeros() -> ([Level; 5], [Level; 4]) {
    path_levels([0; 5], [0; 4])
}

const WRONG_LENGTH: Answer = Err(Why::Refused(7, 0, Part::Sheet));

const ALL: [Short; 6] = [
    Short::Vertices,
    Short::Edges,
    Short::VertexScratch,
    Short::EdgeScratch,
    Short::HeldVertices,
    Short::HeldEdges,
];

const STEPPED: [Short; 4] = [
    Short::Vertices,
    Short::Edges,
    Short::VertexScratch,
    Short::EdgeScratch,
];

const HELD: [Short; 4] = [
    Short::Vertices,
    Short::Edges,
    Short::HeldVertices,
    Short::HeldEdges,
];

// A refused step changes nothing, and a buffer of wrong length is refused before a size.
#[test]
fn refused_steps(rt: HostRuntime) -> Result<(), Fail> {
    for short in STEPPED {
        for size in [0, 1, 201] {
            let (answers, after) = answered([(
                Call::Step(filter(Family::Dilation, size)),
                Some(short),
            )])?;
            assert_eq!(rt; answers, [WRONG_LENGTH]);
            assert_eq!(rt; after, [weights_alone(start())]);
        }
    }
    for size in [0, 201] {
        let (answers, after) = answered([(Call::Step(filter(Family::Dilation, size)), None)])?;
        assert_eq!(rt; answers, [refused(11, 0, Part::Sheet)]);
        assert_eq!(rt; after, [weights_alone(start())]);
    }
    Ok(())
}

// An accepted step leaves what is held, and scratch all lowest.
#[test]
fn accepted_step(rt: HostRuntime) -> Result<(), Fail> {
    let (answers, [after]) = answered([(Call::Step(filter(Family::Opening, 1)), None)])?;
    assert_eq!(rt; answers, [ACCEPTED]);
    let weights = path_levels([2, 2, 7, 7, 1], [2, 2, 2, 1]);
    assert_eq!(rt;
        after,
        with_held(weights, path_levels([65535; 5], [65535; 4]))
    );
    Ok(())
}

// A refused hold hands the sheet back Clear, and the next is accepted.
#[test]
fn holds(rt: HostRuntime) -> Result<(), Fail> {
    for short in HELD {
        let (answers, after) = answered([
            (Call::Hold, Some(short)),
            (Call::Step(filter(Family::Dilation, 1)), None),
            (Call::Hold, None),
        ])?;
        assert_eq!(rt; answers, [WRONG_LENGTH, ACCEPTED, ACCEPTED]);
        let dilated = path_levels([5, 7, 7, 7, 7], [2, 7, 7, 7]);
        let highest = path_levels([65535; 5], [65535; 4]);
        assert_eq!(rt;
            after,
            [
                weights_alone(start()),
                with_held(dilated, highest),
                with_held(dilated, dilated),
            ]
        );
    }
    Ok(())
}

// Hold, then D1, then a release that is refused, then the same that is accepted and leaves these weights.
fn releases(rt: &impl Abort, call: Call, weights: ([Level; 5], [Level; 4])) -> Result<(), Fail> {
    for short in HELD {
        let (answers, [_, dilated, unchanged, released]) = answered([
            (Call::Hold, None),
            (Call::Step(filter(Family::Dilation, 1)), None),
            (call, Some(short)),
            (call, None),
        ])?;
        assert_eq!(rt; answers, [ACCEPTED, ACCEPTED, WRONG_LENGTH, ACCEPTED]);
        assert_eq!(rt;
            dilated,
            with_held(path_levels([5, 7, 7, 7, 7], [2, 7, 7, 7]), start())
        );
        assert_eq!(rt; unchanged, dilated);
        assert_eq!(rt; released, with_held(weights, zeros()));
    }
    Ok(())
}

#[test]
fn joins(rt: HostRuntime) -> Result<(), Fail> {
    releases(&rt, Call::Join, path_levels([5, 7, 7, 7, 7], [2, 7, 7, 7]))
}

#[test]
fn meets(rt: HostRuntime) -> Result<(), Fail> {
    releases(&rt, Call::Meet, start())
}

#[test]
fn forgets(rt: HostRuntime) -> Result<(), Fail> {
    releases(
        &rt,
        Call::Forget,
        path_levels([5, 7, 7, 7, 7], [2, 7, 7, 7]),
    )
}

// The join takes the larger at each place, from either side.
#[test]
fn joins_and_meets_place_by_place(rt: HostRuntime) -> Result<(), Fail> {
    let (_, [_, _, joined]) = answered([
        (Call::Hold, None),
        (Call::Step(filter(Family::Erosion, 1)), None),
        (Call::Join, None),
    ])?;
    assert_eq!(rt; joined, with_held(start(), zeros()));
    let (_, [_, _, met]) = answered([
        (Call::Hold, None),
        (Call::Step(filter(Family::Erosion, 1)), None),
        (Call::Meet, None),
    ])?;
    assert_eq!(rt;
        met,
        with_held(path_levels([2, 2, 2, 1, 1], [2, 2, 1, 1]), zeros())
    );
    Ok(())
}

const TEXTS: &[&[u8]] = &[b"C1", b"O3 4 C2", &[b' '; 4097]];

// A buffer of wrong length is refused before a text that is too long or has a wrong word.
#[test]
fn runs_of_short_buffers(rt: HostRuntime) -> Result<(), Fail> {
    for short in ALL {
        for text in TEXTS {
            assert_eq!(rt;
                run(text, Some(short))?,
                (WRONG_LENGTH, weights_alone(start()))
            );
        }
    }
    Ok(())
}

// Each text with its refusal. The whole text is judged before its first word is done.
const REFUSED_TEXTS: &[(&[u8], u8, usize, Part)] = &[
    (b"O3 4 C2", 13, 3, Part::Word),
    (b"D1 O201", 11, 3, Part::Word),
    (b"O1 H", 16, 4, Part::Recipe),
    (b"H J J", 15, 4, Part::Recipe),
    (&[b' '; 4097], 12, 0, Part::Recipe),
];

#[test]
fn refused_runs(rt: HostRuntime) -> Result<(), Fail> {
    for (text, number, place, part) in REFUSED_TEXTS {
        let answer = refused(*number, *place, *part);
        assert_eq!(rt; run(text, None)?, (answer, weights_alone(start())));
    }
    Ok(())
}

// Each text with what it leaves of the path sheet.
const ACCEPTED_TEXTS: &[(&[u8], [u16; 5], [u16; 4])] = &[
    (b"", [5, 2, 7, 7, 1], [2, 2, 7, 1]),
    (b"D1 H E1 M", [5, 5, 7, 7, 7], [2, 2, 7, 7]),
    (b"C2", [5, 5, 7, 7, 7], [2, 2, 7, 7]),
    (b"H O2 J", [5, 2, 7, 7, 1], [2, 2, 7, 1]),
    (b"H O2 F O1", [2, 2, 2, 2, 1], [2, 2, 2, 1]),
    (b"  C1   O1 ", [5, 5, 7, 7, 7], [2, 2, 2, 1]),
];

#[test]
fn accepted_runs(rt: HostRuntime) -> Result<(), Fail> {
    for (text, vertices, edges) in ACCEPTED_TEXTS {
        let after = with_held(path_levels(*vertices, *edges), zeros());
        assert_eq!(rt; run(text, None)?, (ACCEPTED, after));
    }
    Ok(())
}

// Checks which words the place holds.
fn place_holds(rt: &impl Abort, place: &Recipe, text: &[u8]) -> Result<(), Fail> {
    let mut buffer = [0; 16];
    let len = place.write(&mut buffer)?;
    assert!(rt; len <= 16);
    assert_eq!(rt; &buffer[..len], text);
    Ok(())
}

#[test]
fn recipe_place(rt: HostRuntime) -> Result<(), Fail> {
    let mut place = Recipe::empty();
    let run = [(Call::Run, None)];
    let (answers, _) = on_path(run, b"D1  H E1 M", b"", &mut place)?;
    assert_eq!(rt; answers, [ACCEPTED]);
    place_holds(&rt, &place, b"D1 H E1 M")?;
    let refusals = [
        (Call::Run, None),
        (Call::RunOther, Some(Short::HeldEdges)),
        (Call::Step(filter(Family::Opening, 1)), None),
    ];
    let (answers, _) = on_path(refusals, b"O3 4 C2", b"C1", &mut place)?;
    assert_eq!(rt;
        answers,
        [refused(13, 3, Part::Word), WRONG_LENGTH, ACCEPTED]
    );
    place_holds(&rt, &place, b"D1 H E1 M")?;
    let (answers, _) = on_path(run, b"", b"", &mut place)?;
    assert_eq!(rt; answers, [ACCEPTED]);
    assert_eq!(rt; place.words().len(), 0);
    Ok(())
}

fn cut_pair(cut: LevelCut, weights: Pair<Level>) -> Pair<Presence> {
    Pair {
        vertices: weights.vertices.map(|weight| cut.read(weight)),
        edges: weights.edges.map(|weight| cut.read(weight)),
    }
}

fn cut_all(cut: LevelCut, buffers: Buffers<Level>) -> Buffers<Presence> {
    Buffers {
        weights: cut_pair(cut, buffers.weights),
        scratch: cut_pair(cut, buffers.scratch),
        held: cut_pair(cut, buffers.held),
    }
}

// Checks that a story answers alike on the path sheet and on its cut at 5, and that each buffer stays the cut of the other.
fn commutes(
    rt: &impl Abort,
    story: [(Call, Option<Short>); 8],
    text: &[u8],
    other_text: &[u8],
) -> Result<(), Fail> {
    let cut = LevelCut::new(Level::new(5))?;
    let mut place = Recipe::empty();
    let mut cut_place = Recipe::empty();
    let (answers, after) = on_path(story, text, other_text, &mut place)?;
    let cut_records = [1, 0, 1, 1, 0];
    let (cut_answers, cut_after) = trace(
        &edges(),
        &cut_records,
        story,
        text,
        other_text,
        &mut cut_place,
    )?;
    assert_eq!(rt; answers, cut_answers);
    for (buffers, cut_buffers) in after.iter().zip(cut_after.iter()) {
        assert_eq!(rt; cut_all(cut, *buffers), *cut_buffers);
    }
    assert_eq!(rt; place.words().len(), cut_place.words().len());
    Ok(())
}

fn worked_story() -> [(Call, Option<Short>); 8] {
    [
        (Call::Hold, Some(Short::HeldEdges)),
        (Call::Hold, None),
        (Call::Step(filter(Family::Opening, 1)), None),
        (Call::Step(filter(Family::Erosion, 201)), None),
        (Call::Step(filter(Family::Dilation, 1)), None),
        (Call::Meet, None),
        (Call::Run, None),
        (Call::RunOther, None),
    ]
}

#[test]
fn story_of_levels(rt: HostRuntime) -> Result<(), Fail> {
    let mut place = Recipe::empty();
    let (answers, after) = on_path(worked_story(), b"O3 4 C2", b"C1", &mut place)?;
    place_holds(&rt, &place, b"C1")?;
    assert_eq!(rt;
        answers,
        [
            WRONG_LENGTH,
            ACCEPTED,
            ACCEPTED,
            refused(11, 0, Part::Sheet),
            ACCEPTED,
            ACCEPTED,
            refused(13, 3, Part::Word),
            ACCEPTED,
        ]
    );
    let [.., opened, _, dilated, met, _, closed] = after;
    assert_eq!(rt;
        opened,
        with_held(path_levels([2, 2, 7, 7, 1], [2, 2, 2, 1]), start())
    );
    assert_eq!(rt;
        dilated,
        with_held(path_levels([2, 7, 7, 7, 7], [2, 2, 2, 2]), start())
    );
    assert_eq!(rt;
        met,
        with_held(path_levels([2, 2, 7, 7, 1], [2, 2, 2, 1]), zeros())
    );
    assert_eq!(rt;
        closed,
        with_held(path_levels([2, 2, 7, 7, 7], [2, 2, 2, 1]), zeros())
    );
    Ok(())
}

#[test]
fn stories_commute_with_cuts(rt: HostRuntime) -> Result<(), Fail> {
    commutes(&rt, worked_story(), b"O3 4 C2", b"C1")?;
    let story = [
        (Call::Step(filter(Family::Dilation, 0)), None),
        (Call::Run, None),
        (Call::Hold, None),
        (
            Call::Step(filter(Family::Erosion, 1)),
            Some(Short::EdgeScratch),
        ),
        (Call::Step(filter(Family::Erosion, 1)), None),
        (Call::Join, Some(Short::Vertices)),
        (Call::Join, None),
        (Call::RunOther, Some(Short::VertexScratch)),
    ];
    commutes(&rt, story, b"D1 H E1 M", b"A2")
}

fn opening_story() -> [(Call, Option<Short>); 7] {
    [
        (Call::Step(filter(Family::Opening, 1)), None),
        (Call::Hold, None),
        (Call::Step(filter(Family::Opening, 201)), None),
        (Call::Forget, Some(Short::Vertices)),
        (Call::Forget, None),
        (Call::Run, None),
        (Call::RunOther, None),
    ]
}

// The story leaves what O2 alone leaves: the largest of its openings that were accepted.
#[test]
fn openings_of_a_story_absorb(rt: HostRuntime) -> Result<(), Fail> {
    let mut place = Recipe::empty();
    let (answers, after) = on_path(opening_story(), b"H O2 F O1", b"D5 H", &mut place)?;
    let [.., forgotten, ran, last] = answers;
    assert_eq!(rt;
        [forgotten, ran, last],
        [ACCEPTED, ACCEPTED, refused(16, 4, Part::Recipe)]
    );
    let [.., left] = after;
    assert_eq!(rt;
        left,
        with_held(path_levels([2, 2, 2, 2, 1], [2, 2, 2, 1]), zeros())
    );
    assert_eq!(rt; run(b"O2", None)?, (ACCEPTED, left));
    Ok(())
}
