//! Which filters there are.

/// The families of filters. Each has a letter in a recipe text.
#[derive(Clone, Copy, PartialEq, Eq, Debug)]
pub enum Family {
    /// D: dilation.
    Dilation,
    /// E: erosion.
    Erosion,
    /// O: opening.
    Opening,
    /// C: closing.
    Closing,
    /// A: the alternate filter, closings and openings of rising sizes in turn.
    Alternate,
}

/// A filter: its family and its size. Calls that apply a filter refuse sizes other than 1 to 200.
#[derive(Clone, Copy, PartialEq, Eq, Debug)]
pub struct Filter {
    pub family: Family,
    pub size: u32,
}
