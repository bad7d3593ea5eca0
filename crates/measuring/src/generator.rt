//! Numbers that look random and are the same in every run.

ghost use Rattle.std.specs.Prelude.{◌≡◌, ◌/◌, ◌<◌, ◌^◌};
ghost use Rattle.measuring.specs.Draws.{after, vertex};

/// A linear congruential generator modulo 2^64.
#[derive(Drop)]
pub(crate) struct Generator {
    state: u64,
}

impl Generator {
    pub(crate) fn new(seed: u64) -> Generator
        ensures { result.state ≡ seed }
    {
        Generator { state: seed }
    }

    /// One step; the answer is the state after it.
    fn step(&mut self) -> u64
        ensures next { self.new.state ≡ after self.old.state }
        ensures answer { result ≡ self.new.state }
    {
        self.state = self
            .state
            .wrapping_mul(6364136223846793005)
            .wrapping_add(1442695040888963407);
        self.state
    }

    /// One step; the answer is the upper half of the state, reduced to a number below `bound`.
    pub(crate) fn below(&mut self, bound: u32) -> u32
        requires { 0 < bound }
        ensures next { self.new.state ≡ after self.old.state }
        ensures answer { result ≡ vertex bound self.new.state }
        ensures bound { result < bound }
    {
        let upper = (self.step() >> 32) as u32;
        upper % bound
    }

    /// One step; the answer is the uppermost 16 bits of the state.
    pub(crate) fn upper_bits(&mut self) -> u16
        ensures next { self.new.state ≡ after self.old.state }
        ensures answer { result ≡ self.new.state / 2 ^ 48 }
    {
        (self.step() >> 48) as u16
    }
}
