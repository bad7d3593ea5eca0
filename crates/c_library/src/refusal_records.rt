//! A refusal as C sees it.

/// A refusal as three numbers: of the rule, the place and the part. All are 0 where nothing is refused.
#[derive(Clone, Copy)]
#[repr(C)]
pub struct RefusalRecord {
    /// The number of the rule that was broken.
    pub number: u64,
    /// The place that is at fault.
    pub place: u64,
    /// The part of the input: 1 graph, 2 sheet, 3 word, 4 recipe, 5 reading.
    pub part: u64,
}
