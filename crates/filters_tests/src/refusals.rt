// Which sizes and buffers a filter refuses, and what scratch holds afterwards.

use crate::support::*;
use filters::Filter;
use lattice::*;
use std::process::Abort;
use std::test::Fail;

// What a filter of the path answers, and what it leaves of these weights and of this scratch.
fn on_path_from<K: Kind, const V: usize, const E: usize, const W: usize, const F: usize>(
    filter: Filter,
    weights: Sheet<K, V, E>,
    scratch: Sheet<K, W, F>,
) -> (Outcome, Sheet<K, V, E>, Sheet<K, W, F>) {
    let (answer, left, scratch_left) = with_scratch(filter, 5, &path(), weights, scratch);
    (outcome(answer), left, scratch_left)
}

// What a filter of the path answers where its buffers hold these levels, and whether they do afterwards.
fn attempt<const V: usize, const E: usize, const W: usize, const F: usize>(
    filter: Filter,
    weights: Sheet<Level, V, E>,
    scratch: Sheet<Level, W, F>,
) -> (Outcome, bool) {
    let (answer, left, scratch_left) = on_path_from(filter, weights, scratch);
    (answer, left == weights && scratch_left == scratch)
}

// Checks that a filter refuses buffers of these lengths by 7 and changes nothing.
fn refuses<const V: usize, const E: usize, const W: usize, const F: usize>(
    rt: &impl Abort,
    filter: Filter,
    weights: ([u16; V], [u16; E]),
    scratch: ([u16; W], [u16; F]),
) {
    let (vertices, edges) = weights;
    let (vertex_scratch, edge_scratch) = scratch;
    let answer = attempt(
        filter,
        (levels(vertices), levels(edges)),
        (levels(vertex_scratch), levels(edge_scratch)),
    );
    assert_eq!(rt; answer, (refused(7), true));
}

#[test]
fn sizes(rt: HostRuntime) {
    let weights = path_levels([5, 2, 7, 7, 1], [2, 2, 7, 1]);
    let scratch = path_levels([8; 5], [9; 4]);
    for size in [0, 201, 202, 257, 4_294_967_295] {
        for filter in [d(size), e(size), o(size), c(size), a(size)] {
            assert_eq!(rt; attempt(filter, weights, scratch), (refused(11), true));
        }
    }
    for size in [1, 2, 199, 200] {
        for filter in [d(size), e(size), o(size), c(size), a(size)] {
            assert_eq!(rt; attempt(filter, weights, scratch), (ACCEPTED, false));
        }
    }
}

#[test]
fn weight_lengths(rt: HostRuntime) {
    refuses(&rt, d(1), ([3; 4], [2; 4]), ([8; 5], [9; 4]));
    refuses(&rt, e(1), ([3; 6], [2; 4]), ([8; 5], [9; 4]));
    refuses(&rt, o(1), ([3; 5], [2; 3]), ([8; 5], [9; 4]));
    refuses(&rt, c(1), ([3; 5], [2; 5]), ([8; 5], [9; 4]));
    refuses(&rt, a(1), ([3; 0], [2; 0]), ([8; 5], [9; 4]));
}

#[test]
fn scratch_lengths(rt: HostRuntime) {
    refuses(&rt, d(1), ([3; 5], [2; 4]), ([8; 4], [9; 4]));
    refuses(&rt, e(1), ([3; 5], [2; 4]), ([8; 6], [9; 4]));
    refuses(&rt, o(1), ([3; 5], [2; 4]), ([8; 5], [9; 3]));
    refuses(&rt, c(1), ([3; 5], [2; 4]), ([8; 5], [9; 5]));
    refuses(&rt, a(1), ([3; 5], [2; 4]), ([8; 0], [9; 0]));
}

#[test]
fn lengths_before_sizes(rt: HostRuntime) {
    refuses(&rt, d(0), ([3; 4], [2; 4]), ([8; 5], [9; 4]));
    refuses(&rt, e(201), ([3; 5], [2; 5]), ([8; 5], [9; 4]));
    refuses(&rt, o(0), ([3; 5], [2; 4]), ([8; 6], [9; 4]));
    refuses(&rt, a(201), ([3; 5], [2; 4]), ([8; 5], [9; 3]));
}

#[test]
fn scratch_ends_lowest(rt: HostRuntime) -> Result<(), Fail> {
    let weights = path_levels([5, 2, 7, 7, 1], [2, 2, 7, 1]);
    let zeros = path_levels([0; 5], [0; 4]);
    for filter in [d(3), e(3), o(3), o(4), c(3), c(4), a(3)] {
        let left = (ACCEPTED, on_path(&[filter])?, zeros);
        assert_eq!(rt; on_path_from(filter, weights, zeros), left);
        assert_eq!(rt;
            on_path_from(filter, weights, path_levels([65535; 5], [1, 2, 3, 4])),
            left
        );
    }
    Ok(())
}

#[test]
fn scratch_of_other_kinds(rt: HostRuntime) {
    let turned = (reversed([5, 2, 7, 7, 1]), reversed([2, 2, 7, 1]));
    let (_, _, scratch) = on_path_from(d(1), turned, turned);
    assert_eq!(rt; scratch, (reversed([65535; 5]), reversed([65535; 4])));
    let all = path_presences([1; 5], [1; 4]);
    let (_, _, scratch) = on_path_from(e(1), all, all);
    assert_eq!(rt; scratch, path_presences([0; 5], [0; 4]));
    let sets = ([Classes::from_bits(3); 5], [Classes::from_bits(2); 4]);
    let (_, _, scratch) = on_path_from(o(1), sets, sets);
    assert_eq!(rt;
        scratch,
        ([Classes::from_bits(0); 5], [Classes::from_bits(0); 4])
    );
}
