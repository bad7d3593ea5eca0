// The worked examples of the laws that all filters obey, each with its numbers.

use crate::support::*;
use filters::Filter;
use lattice::*;
use readings::*;
use refusal::Refusal;
use std::test::Fail;

// Whether the weighting, dilated once, is below the path sheet, and whether it is below the path sheet, eroded once.
fn within_path(weights: Sheet<Level, 5, 4>) -> Result<(bool, bool), Refusal> {
    let (vertices, edges) = path_levels([5, 2, 7, 7, 1], [2, 2, 7, 1]);
    let (dilated_vertices, dilated_edges) = filtered(&[d(1)], &path(), weights)?;
    let (eroded_vertices, eroded_edges) = on_path(&[e(1)])?;
    let dilated = all_below(&dilated_vertices, &vertices) && all_below(&dilated_edges, &edges);
    let (lower_vertices, lower_edges) = weights;
    let eroded = all_below(&lower_vertices, &eroded_vertices)
        && all_below(&lower_edges, &eroded_edges);
    Ok((dilated, eroded))
}

#[test]
fn dilation_is_adjoint_to_erosion(rt: HostRuntime) -> Result<(), Fail> {
    let below = path_levels([2, 2, 2, 1, 1], [1, 1, 1, 1]);
    assert_eq!(rt;
        filtered(&[d(1)], &path(), below)?,
        path_levels([2, 2, 2, 2, 1], [1, 1, 1, 1])
    );
    assert_eq!(rt; within_path(below)?, (true, true));
    Ok(())
}

#[test]
fn neither_side_is_below(rt: HostRuntime) -> Result<(), Fail> {
    let vertex_above = path_levels([2, 2, 3, 1, 1], [2, 2, 1, 1]);
    assert_eq!(rt;
        filtered(&[d(1)], &path(), vertex_above)?,
        path_levels([2, 3, 3, 3, 1], [2, 2, 2, 1])
    );
    assert_eq!(rt; within_path(vertex_above)?, (false, false));
    let edge_above = path_levels([2, 2, 2, 1, 1], [2, 2, 2, 1]);
    assert_eq!(rt;
        filtered(&[d(1)], &path(), edge_above)?,
        path_levels([2, 2, 2, 2, 1], [2, 2, 2, 2])
    );
    assert_eq!(rt; within_path(edge_above)?, (false, false));
    Ok(())
}

// The empty meet is the highest value, so that a vertex without edges obeys the law too.
#[test]
fn adjoint_without_edges(rt: HostRuntime) -> Result<(), Fail> {
    let none: [Level; 0] = [];
    assert_eq!(rt;
        filtered(&[d(1)], &[], (levels([9]), none))?,
        (levels([0]), none)
    );
    assert_eq!(rt;
        filtered(&[e(1)], &[], (levels([4]), none))?,
        (levels([65535]), none)
    );
    assert!(rt; all_below(&levels([0]), &levels([4])));
    assert!(rt; all_below(&levels([9]), &levels([65535])));
    Ok(())
}

#[test]
fn openings_absorb(rt: HostRuntime) -> Result<(), Fail> {
    check_examples(
        &rt,
        &[
            (&[o(1)], [2, 2, 7, 7, 1], [2, 2, 2, 1]),
            (&[o(1), o(2)], [2, 2, 2, 2, 1], [2, 2, 2, 1]),
            (&[o(1), o(2), o(1)], [2, 2, 2, 2, 1], [2, 2, 2, 1]),
            (&[o(2)], [2, 2, 2, 2, 1], [2, 2, 2, 1]),
        ],
    )
}

#[test]
fn openings_absorb_in_any_order(rt: HostRuntime) -> Result<(), Fail> {
    let largest = on_path(&[o(3)])?;
    assert_ne!(rt; largest, on_path(&[o(1)])?);
    assert_eq!(rt; on_path(&[o(1), o(3)])?, largest);
    assert_eq!(rt; on_path(&[o(3), o(1)])?, largest);
    assert_eq!(rt; on_path(&[o(3), o(3)])?, largest);
    Ok(())
}

#[test]
fn closings_absorb(rt: HostRuntime) -> Result<(), Fail> {
    check_examples(
        &rt,
        &[
            (&[c(1)], [5, 5, 7, 7, 7], [2, 2, 7, 1]),
            (&[c(1), c(3)], [7, 7, 7, 7, 7], [2, 2, 7, 7]),
            (&[c(1), c(3), c(2)], [7, 7, 7, 7, 7], [2, 2, 7, 7]),
            (&[c(3)], [7, 7, 7, 7, 7], [2, 2, 7, 7]),
        ],
    )
}

// The rounds of dilations and erosions add up, and openings do not absorb closings.
#[test]
fn what_does_not_absorb(rt: HostRuntime) -> Result<(), Fail> {
    assert_eq!(rt; on_path(&[d(1), d(2)])?, on_path(&[d(3)])?);
    check_examples(
        &rt,
        &[
            (&[e(1), e(2)], [2, 1, 1, 1, 1], [1, 1, 1, 1]),
            (&[e(3)], [2, 1, 1, 1, 1], [1, 1, 1, 1]),
            (&[e(2)], [2, 2, 1, 1, 1], [2, 1, 1, 1]),
            (&[o(1), c(1)], [2, 2, 7, 7, 7], [2, 2, 2, 1]),
            (&[c(1), o(1)], [5, 5, 7, 7, 7], [2, 2, 2, 1]),
        ],
    )
}

#[test]
fn alternates_absorb(rt: HostRuntime) -> Result<(), Fail> {
    check_examples(
        &rt,
        &[
            (&[a(1)], [5, 5, 7, 7, 7], [2, 2, 2, 1]),
            (&[a(1), a(2)], [5, 5, 7, 7, 7], [2, 2, 2, 2]),
            (&[a(2)], [5, 5, 7, 7, 7], [2, 2, 2, 2]),
            (&[a(1), a(2), a(3)], [7, 7, 7, 7, 7], [2, 2, 2, 2]),
            (&[a(3)], [7, 7, 7, 7, 7], [2, 2, 2, 2]),
            (&[a(2), a(2), a(3)], [7, 7, 7, 7, 7], [2, 2, 2, 2]),
        ],
    )
}

// What the filters leave at the vertices of a path of six with one vertex more at vertex 3, vertices 2 and 3 present.
fn branched(filters: &[Filter]) -> Result<[Presence; 7], Refusal> {
    let rows = [
        edge(0, 1),
        edge(1, 2),
        edge(2, 3),
        edge(3, 4),
        edge(3, 6),
        edge(4, 5),
    ];
    let sheet = (
        presences([0, 0, 1, 1, 0, 0, 0]),
        presences([0, 0, 1, 0, 0, 0]),
    );
    let (vertices, _) = filtered(filters, &rows, sheet)?;
    Ok(vertices)
}

#[test]
fn alternates_of_falling_sizes(rt: HostRuntime) -> Result<(), Fail> {
    assert_eq!(rt; branched(&[a(1)])?, presences([0, 0, 1, 1, 0, 0, 1]));
    assert_eq!(rt; branched(&[a(3)])?, presences([0, 0, 0, 1, 1, 1, 0]));
    assert_eq!(rt; branched(&[a(1), a(3)])?, presences([0, 0, 0, 1, 1, 1, 0]));
    assert_eq!(rt; branched(&[a(3), a(1)])?, presences([0, 0, 0, 1, 1, 1, 1]));
    Ok(())
}

// What filters leave of lower edges, each below both its ends.
#[test]
fn edges_stay_below_ends(rt: HostRuntime) -> Result<(), Fail> {
    let sheet = path_levels([5, 2, 7, 7, 1], [1, 0, 6, 1]);
    let examples = [
        (d(1), [5, 7, 7, 7, 7], [1, 6, 6, 6]),
        (e(1), [2, 2, 2, 1, 1], [0, 0, 0, 1]),
        (o(1), [2, 2, 7, 7, 1], [1, 0, 1, 1]),
        (c(1), [5, 5, 7, 7, 7], [1, 1, 6, 1]),
        (a(1), [5, 5, 7, 7, 7], [1, 1, 1, 1]),
    ];
    for (filter, vertices, edges) in examples {
        let left = filtered(&[filter], &path(), sheet)?;
        assert_eq!(rt; left, path_levels(vertices, edges));
        let ([first, second, third, fourth, fifth], edges) = left;
        assert!(rt; all_below(&edges, &[first, second, third, fourth]));
        assert!(rt; all_below(&edges, &[second, third, fourth, fifth]));
    }
    Ok(())
}

// An edge that is not below both its ends need not come to be.
#[test]
fn edge_between_its_ends(rt: HostRuntime) -> Result<(), Fail> {
    assert_eq!(rt;
        filtered(&[e(1)], &[edge(0, 1)], (levels([4, 6]), levels([5])))?,
        (levels([4, 4]), levels([5]))
    );
    Ok(())
}

// What a filter leaves at the vertices of a star.
fn star(filter: Filter) -> Result<[Level; 4], Refusal> {
    let rows = [edge(0, 1), edge(0, 2), edge(0, 3)];
    let sheet = (levels([1, 5, 3, 8]), levels([1, 1, 1]));
    let (vertices, _) = filtered(&[filter], &rows, sheet)?;
    Ok(vertices)
}

#[test]
fn neighbourhoods(rt: HostRuntime) -> Result<(), Fail> {
    assert_eq!(rt; star(d(1))?, levels([8, 5, 3, 8]));
    assert_eq!(rt; star(e(1))?, levels([1, 1, 1, 1]));
    Ok(())
}

// The weights that are at least 5 as present.
fn cut_path(weights: Sheet<Level, 5, 4>) -> Result<Sheet<Presence, 5, 4>, Refusal> {
    let cut = LevelCut::new(Level::new(5))?;
    let (vertices, edges) = weights;
    Ok((
        vertices.map(|weight| cut.read(weight)),
        edges.map(|weight| cut.read(weight)),
    ))
}

// The path sheet filtered and then cut, and cut and then filtered.
#[test]
fn filters_commute_with_cuts(rt: HostRuntime) -> Result<(), Fail> {
    let sheet = cut_path(on_path(&[])?)?;
    let examples = [
        (d(1), [1, 1, 1, 1, 1], [0, 1, 1, 1]),
        (e(1), [0, 0, 0, 0, 0], [0, 0, 0, 0]),
        (o(1), [0, 0, 1, 1, 0], [0, 0, 0, 0]),
        (o(2), [0, 0, 0, 0, 0], [0, 0, 0, 0]),
        (c(1), [1, 1, 1, 1, 1], [0, 0, 1, 0]),
        (c(2), [1, 1, 1, 1, 1], [0, 0, 1, 1]),
        (a(1), [1, 1, 1, 1, 1], [0, 0, 0, 0]),
        (a(2), [1, 1, 1, 1, 1], [0, 0, 0, 0]),
    ];
    for (filter, vertices, edges) in examples {
        let result = path_presences(vertices, edges);
        assert_eq!(rt; cut_path(on_path(&[filter])?)?, result);
        assert_eq!(rt; filtered(&[filter], &path(), sheet)?, result);
    }
    Ok(())
}

// Which of these sets have class 2.
fn pick_second(weights: Sheet<Classes, 2, 1>) -> Result<Sheet<Presence, 2, 1>, Refusal> {
    let pick = ClassPick::new(2)?;
    let ([first, second], [edge]) = weights;
    Ok(([pick.read(first), pick.read(second)], [pick.read(edge)]))
}

#[test]
fn filters_commute_with_class_picks(rt: HostRuntime) -> Result<(), Fail> {
    let rows = [edge(0, 1)];
    let sheet = sets(3, 6, 2);
    let dilated = filtered(&[d(1)], &rows, sheet)?;
    assert_eq!(rt; dilated, sets(7, 7, 2));
    assert_eq!(rt; pick_second(sheet)?, (presences([0, 1]), presences([0])));
    let both = (presences([1, 1]), presences([0]));
    assert_eq!(rt; pick_second(dilated)?, both);
    assert_eq!(rt; filtered(&[d(1)], &rows, pick_second(sheet)?)?, both);
    Ok(())
}

// Which of the vertices have exactly 5. This is no reading: it does not keep joins.
fn exactly_five(weights: [Level; 5]) -> [Presence; 5] {
    weights.map(|weight| Presence::from(weight.value() == 5))
}

#[test]
fn what_does_not_commute(rt: HostRuntime) -> Result<(), Fail> {
    let (dilated, _) = on_path(&[d(1)])?;
    assert_eq!(rt; exactly_five(dilated), presences([1, 0, 0, 0, 0]));
    let (vertices, _) = on_path(&[])?;
    let sheet = (exactly_five(vertices), presences([0; 4]));
    let (vertices, _) = filtered(&[d(1)], &path(), sheet)?;
    assert_eq!(rt; vertices, presences([1, 1, 0, 0, 0]));
    Ok(())
}

// The pass examples: the join is the least above, the meet the greatest below.
#[test]
fn least_above_and_greatest_below(rt: HostRuntime) {
    let (two, seven) = (Level::new(2), Level::new(7));
    assert_eq!(rt; (two.join(seven), two.meet(seven)), (seven, two));
    let (first, second) = (Classes::from_bits(3), Classes::from_bits(6));
    let (union, intersection) = (first.join(second), first.meet(second));
    assert_eq!(rt; (union.bits(), intersection.bits()), (7, 2));
    assert!(rt; union.is_below(Classes::from_bits(39)));
    assert!(rt; Classes::from_bits(0).is_below(intersection));
}

#[test]
fn even_openings_and_closings(rt: HostRuntime) -> Result<(), Fail> {
    assert_eq!(rt; on_path(&[e(2), d(2)])?, on_path(&[o(4)])?);
    assert_eq!(rt; on_path(&[d(2), e(2)])?, on_path(&[c(4)])?);
    check_examples(
        &rt,
        &[
            (&[e(1), d(1)], [2, 2, 2, 2, 1], [2, 2, 2, 1]),
            (&[d(1), e(1)], [5, 5, 7, 7, 7], [2, 2, 7, 7]),
        ],
    )
}
