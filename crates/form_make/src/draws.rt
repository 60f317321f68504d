//! Pseudo-random numbers that are drawn one after another from a seed. No public clause cites this
//! module.
ghost use Rattle.std.specs.Prelude.{◌≡◌, ◌<◌};
ghost use Rattle.form_make.specs.Draws.{drawn, next_state, state_after};

/// A generator of numbers; each draw changes the state from which the next one comes.
#[derive(Drop)]
pub(crate) struct Draws {
    pub(crate) state: u64,
}

impl Draws {
    /// The generator before any draw.
    pub(crate) fn from_seed(seed: u64) -> Draws
        ensures { result.state ≡ seed }
    {
        Draws { state: seed }
    }

    /// The next draw, less than `most`.
    pub(crate) fn below(&mut self, most: u32) -> u32
        requires { 0 < most }
        ensures state { self.new.state ≡ next_state self.old.state }
        ensures drawn { result ≡ drawn self.new.state most }
        ensures low { result < most }
    {
        self.state = self
            .state
            .wrapping_mul(6_364_136_223_846_793_005)
            .wrapping_add(1_442_695_040_888_963_407);
        (self.state >> 33) as u32 % most
    }

    /// Makes `count` draws, and ignores them.
    pub(crate) fn skip(&mut self, count: u32)
        ensures { self.new.state ≡ state_after self.old.state count }
    {
        for _skipped in 0..count {
            let _ = self.below(1);
        }
    }
}
