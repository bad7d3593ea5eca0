//! How far the run is, on standard error.

use calls::Progress;
use std::time::Instant;

/// Says how many words are done, at most once a second.
#[derive(Clone, Copy)]
pub struct Meter<'a> {
    rt: &'a HostRuntime,
    said: Instant,
}

impl<'a> Meter<'a> {
    /// A meter that says nothing in the first second.
    pub(crate) fn new(rt: &'a HostRuntime, start: Instant) -> Meter<'a> {
        Meter { rt, said: start }
    }
}

impl<'a> Progress for Meter<'a> {
    fn word_done(&mut self, done: usize, of: usize) {
        let Ok(now) = Instant::now(self.rt) else {
            return;
        };
        if now.saturating_duration_since(self.said).as_secs() >= 1 {
            let rt = self.rt;
            let _ = eprintln!(rt; "{done} of {of} words done");
            self.said = now;
        }
    }
}
