//! Examples of edge tables and graph files.

#![tactic(auto)]

use graph::{Edge, Graph, check_file, judge};
use refusal::{Part, Refusal};

// The cases are of one shape, each with its own values, and stand apart so that each can be read by itself.

// `outcome` and `edge` stand in other test crates too. A crate for them would be a library, and each of its public functions
// would owe a contract and a must-fail edit, for three lines.

/// What a call answers: a refusal by its number, its place and its part.
type Outcome = Result<(), (u8, usize, Part)>;

fn outcome(answer: Result<(), Refusal>) -> Outcome {
    answer.map_err(|refusal| (refusal.number(), refusal.place(), refusal.part()))
}

const ACCEPTED: Outcome = Ok(());

/// A refusal by its number and place: the part is always the graph.
fn refused(number: u8, place: usize) -> Outcome {
    Err((number, place, Part::Graph))
}

fn edge(first: u32, second: u32) -> Edge {
    Edge { first, second }
}

/// What judging these rows answers.
fn judged(n: usize, rows: &[Edge]) -> Outcome {
    let mut place = Graph::empty();
    outcome(judge(&mut place, n, rows))
}

#[cfg(test)]
mod tables {
    use super::*;
    use std::test::Fail;

    // Whether the place holds the graph with n vertices and these edges.
    fn holds(place: &Graph, n: usize, rows: &[Edge]) -> bool {
        place.order() == n && place.edges() == rows
    }

    // Whether judging these rows fills the place with their graph.
    fn filled(n: usize, rows: &[Edge]) -> bool {
        let mut place = Graph::empty();
        judge(&mut place, n, rows).is_ok() && holds(&place, n, rows)
    }

    // What judging other rows into the same place answers, and whether the place still holds the first graph.
    fn judged_after<'a>(
        n: usize,
        rows: &'a [Edge],
        other_n: usize,
        others: &'a [Edge],
    ) -> (Outcome, bool) {
        let mut place = Graph::empty();
        let first = judge(&mut place, n, rows);
        let second = outcome(judge(&mut place, other_n, others));
        (second, first.is_ok() && holds(&place, n, rows))
    }

    #[test]
    fn empty_graphs(rt: HostRuntime) {
        assert_eq!(rt; judged(0, &[]), ACCEPTED);
        assert_eq!(rt; judged(1, &[]), ACCEPTED);
        assert_eq!(rt; judged(1_000_000, &[]), ACCEPTED);
        assert_eq!(rt; Graph::empty().order(), 0);
        assert_eq!(rt; Graph::empty().edges().len(), 0);
    }

    #[test]
    fn accepted_graphs(rt: HostRuntime) {
        let rows = [edge(0, 1), edge(0, 999_999), edge(999_998, 999_999)];
        assert!(rt; filled(1_000_000, &rows));
    }

    #[test]
    fn counts(rt: HostRuntime) {
        assert_eq!(rt; judged(1_000_001, &[]), refused(2, 0));
        assert_eq!(rt; judged(usize::MAX, &[edge(0, 1)]), refused(2, 0));
        assert_eq!(rt; judged(1_000_001, &[edge(2, 2)]), refused(2, 0));
    }

    #[test]
    fn many_rows(rt: HostRuntime) -> Result<(), Fail> {
        let most = vec![in rt.alloc(); edge(0, 1); 4_000_000]?;
        assert_eq!(rt; judged(2, &most), refused(6, 1));
        let too_many = vec![in rt.alloc(); edge(0, 1); 4_000_001]?;
        assert_eq!(rt; judged(2, &too_many), refused(2, 0));
        Ok(())
    }

    #[test]
    fn ends(rt: HostRuntime) {
        assert_eq!(rt; judged(3, &[edge(2, 2)]), refused(4, 0));
        assert_eq!(rt; judged(3, &[edge(1, 0)]), refused(4, 0));
        assert_eq!(rt; judged(3, &[edge(0, 1), edge(2, 1)]), refused(4, 1));
        assert_eq!(rt; judged(3, &[edge(1, 3)]), refused(5, 0));
        assert_eq!(rt; judged(0, &[edge(0, 1)]), refused(5, 0));
        assert_eq!(rt; judged(3, &[edge(1, 2)]), ACCEPTED);
    }

    #[test]
    fn order_of_records(rt: HostRuntime) {
        assert_eq!(rt; judged(3, &[edge(0, 2), edge(0, 1)]), refused(6, 1));
        assert_eq!(rt; judged(3, &[edge(0, 1), edge(0, 1)]), refused(6, 1));
        assert_eq!(rt; judged(3, &[edge(1, 2), edge(0, 2)]), refused(6, 1));
        assert_eq!(rt; judged(3, &[edge(0, 1), edge(0, 2), edge(1, 2)]), ACCEPTED);
        assert_eq!(rt; judged(3, &[edge(0, 2), edge(1, 2)]), ACCEPTED);
    }

    #[test]
    fn order_of_edges(rt: HostRuntime) {
        assert!(rt; edge(0, 9).is_before(edge(1, 2)));
        assert!(rt; edge(1, 2).is_before(edge(1, 3)));
        assert!(rt; !edge(1, 2).is_before(edge(1, 2)));
        assert!(rt; !edge(1, 3).is_before(edge(1, 2)));
        assert!(rt; !edge(1, 2).is_before(edge(0, 9)));
    }

    // A record that breaks several rules is refused by the first of them, and the first record that breaks one is refused.
    #[test]
    fn first_fault(rt: HostRuntime) {
        assert_eq!(rt; judged(3, &[edge(5, 5)]), refused(4, 0));
        assert_eq!(rt; judged(3, &[edge(1, 2), edge(0, 9)]), refused(5, 1));
        assert_eq!(rt; judged(3, &[edge(1, 2), edge(0, 0)]), refused(4, 1));
        assert_eq!(rt; judged(3, &[edge(1, 9), edge(2, 2)]), refused(5, 0));
        assert_eq!(rt;
            judged(3, &[edge(0, 2), edge(0, 1), edge(2, 2)]),
            refused(6, 1)
        );
    }

    #[test]
    fn refused_place_stays(rt: HostRuntime) {
        let rows = [edge(0, 1), edge(1, 2)];
        let loops = [edge(2, 2)];
        assert_eq!(rt; judged_after(3, &rows, 9, &loops), (refused(4, 0), true));
        assert_eq!(rt;
            judged_after(3, &rows, 1_000_001, &rows),
            (refused(2, 0), true)
        );
        assert_eq!(rt; judged_after(3, &rows, 4, &rows), (ACCEPTED, false));
    }
}

#[cfg(test)]
mod files {
    use super::*;
    use std::test::Fail;

    const FILLER: Edge = Edge {
        first: 7,
        second: 7,
    };

    // The edges 0-2 and 1-2.
    const TWO: [u8; 16] = [0, 0, 0, 0, 2, 0, 0, 0, 1, 0, 0, 0, 2, 0, 0, 0];

    #[test]
    fn low_byte_first(rt: HostRuntime) {
        let bytes = [0x3F, 0x42, 0x0F, 0, 0x40, 0x42, 0x0F, 0];
        let mut table = [FILLER];
        assert_eq!(rt;
            outcome(check_file(1_000_000, &bytes, &mut table)),
            refused(5, 0)
        );
        assert_eq!(rt; table, [FILLER]);
        let bytes = [0x3E, 0x42, 0x0F, 0, 0x3F, 0x42, 0x0F, 0];
        assert_eq!(rt;
            outcome(check_file(1_000_000, &bytes, &mut table)),
            ACCEPTED
        );
        assert_eq!(rt; table, [edge(999_998, 999_999)]);
    }

    #[test]
    fn rows_written(rt: HostRuntime) {
        let mut table = [FILLER; 2];
        assert_eq!(rt; outcome(check_file(3, &TWO, &mut table)), ACCEPTED);
        assert_eq!(rt; table, [edge(0, 2), edge(1, 2)]);
        assert_eq!(rt; judged(3, &table), ACCEPTED);
    }

    #[test]
    fn empty_file(rt: HostRuntime) {
        assert_eq!(rt; outcome(check_file(0, &[], &mut [])), ACCEPTED);
        assert_eq!(rt; outcome(check_file(5, &[], &mut [])), ACCEPTED);
        assert_eq!(rt; outcome(check_file(5, &[], &mut [FILLER])), refused(3, 0));
    }

    #[test]
    fn lengths(rt: HostRuntime) {
        let mut table = [FILLER; 3];
        assert_eq!(rt;
            outcome(check_file(3, &TWO[..12], &mut table)),
            refused(1, 0)
        );
        assert_eq!(rt;
            outcome(check_file(1_000_001, &TWO[..12], &mut table)),
            refused(1, 0)
        );
        assert_eq!(rt;
            outcome(check_file(1_000_001, &TWO, &mut table)),
            refused(2, 0)
        );
        assert_eq!(rt; outcome(check_file(3, &TWO, &mut table)), refused(3, 0));
        assert_eq!(rt; outcome(check_file(1, &TWO, &mut table)), refused(3, 0));
        assert_eq!(rt; table, [FILLER; 3]);
    }

    #[test]
    fn many_records(rt: HostRuntime) -> Result<(), Fail> {
        let bytes = vec![in rt.alloc(); 0u8; 32_000_008]?;
        assert_eq!(rt; outcome(check_file(3, &bytes, &mut [])), refused(2, 0));
        Ok(())
    }

    #[test]
    fn records(rt: HostRuntime) {
        let mut table = [FILLER; 2];
        assert_eq!(rt; outcome(check_file(2, &TWO, &mut table)), refused(5, 0));
        let equal_ends = [0, 0, 0, 0, 2, 0, 0, 0, 2, 0, 0, 0, 2, 0, 0, 0];
        assert_eq!(rt;
            outcome(check_file(3, &equal_ends, &mut table)),
            refused(4, 1)
        );
        let falling = [0, 0, 0, 0, 2, 0, 0, 0, 0, 0, 0, 0, 1, 0, 0, 0];
        assert_eq!(rt; outcome(check_file(3, &falling, &mut table)), refused(6, 1));
        assert_eq!(rt; table, [FILLER; 2]);
    }
}
