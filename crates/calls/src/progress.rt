//! How far a run is.

// Kept as a trait: that a closure may be called has to be required, and a public function requires nothing.
/// What is told, during a run, how many words are done.
pub trait Progress {
    /// One more word is done: so many by now, of so many.
    fn word_done(&mut self, done: usize, of: usize);
}

/// Tells nobody.
#[derive(Clone, Copy)]
pub struct Silent;

impl Progress for Silent {
    fn word_done(&mut self, _done: usize, _of: usize) {}
}
