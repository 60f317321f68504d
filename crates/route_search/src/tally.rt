//! A counter of searches.
ghost use Rattle.std.specs.Prelude.{◌≡◌, ◌^◌, ◌<◌};
ghost use Rattle.line_arena.specs.Count.{counted_by};

use std::marker::Model;

/// Counts searches, up to 2^64 - 1. Its model is the count.
#[derive(Debug, Drop)]
pub struct Tally {
    count: u64,
}

impl Model for Tally {
    ghost use Rattle.std.specs.Prelude.{ℕ};

    ghost Value = { ℕ };

    ghost view = { λ a. a.count };

    ghost inverse = { λ n. record { count = n } };
}

impl Tally {
    /// A tally with the count 0.
    pub fn new() -> Tally
        ensures { result ≡ 0 }
    {
        Tally { count: 0 }
    }

    /// The number of searches, and 2^64 - 1 if there were more.
    pub fn bounded(&self)
        ensures { self.now < 2 ^ 64 }
    {
        let _count = self.count;
    }

    /// How many searches were made, and 2^64 - 1 where it would be more.
    pub fn count(&self) -> u64
        ensures { result ≡ self.now }
    {
        self.count
    }

    /// A tally that begins at 0, to be joined to this one later. This one stays as it is.
    pub fn split(&mut self) -> Tally
        ensures part { result ≡ 0 }
        ensures stays { self.new ≡ self.old }
    {
        Tally::new()
    }

    /// Adds the count of the part.
    pub fn join(&mut self, part: Tally)
        ensures { self.new ≡ counted_by part self.old }
    {
        self.count = self.count.saturating_add(part.count);
    }

    /// Counts one more search.
    pub(crate) fn rise(&mut self)
        ensures { self.new ≡ counted_by 1 self.old }
    {
        self.count = self.count.saturating_add(1);
    }
}
