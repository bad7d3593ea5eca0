//! Kinds by name or number.

/// A kind that is no reversal.
#[derive(Clone, Copy, PartialEq, Eq, Debug)]
pub enum BaseKind {
    /// Absent or present.
    Presence,
    /// 0 to 65,535.
    Level,
    /// Sets of classes 0 to 31.
    Classes,
}

/// A kind by its name: one of the three, or its reversal.
///
/// To reverse a kind turns its order and keeps its records, and two reversals undo each other: a kind that is reversed an even
/// number of times gives the same answers and records as the kind itself.
#[derive(Clone, Copy, PartialEq, Eq, Debug)]
pub struct KindName {
    pub base: BaseKind,
    // A part of the name, and no flag for whether `base` is there.
    pub reversed: bool,
}

/// No kind has the name or the number.
#[derive(Clone, Copy, PartialEq, Eq, Debug)]
pub struct UnknownKind;
