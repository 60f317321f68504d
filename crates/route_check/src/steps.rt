//! Ranges of steps.
ghost use Rattle.std.specs.Prelude.{ℕ, ◌+◌, ◌<◌, ◌↔◌};

/// Unit steps of a line by their numbers, counted from 0: those from `begin` on and before `end`.
#[derive(Clone, Copy)]
pub struct Steps {
    pub begin: u64,
    pub end: u64,
}

impl Steps {
    ghost use Rattle.route_check.specs.Steps.{IsAmong};

    /// The steps that are in both ranges.
    pub fn both(self, other: Steps) -> Steps
        ensures { (k : ℕ) → IsAmong result k ↔ (IsAmong self k × IsAmong other k) }
    {
        Steps {
            begin: self.begin.max(other.begin),
            end: self.end.min(other.end),
        }
    }

    /// The part of the range on a stretch of `length` steps that begins at step `from`, counted
    /// from `from`.
    pub fn within(self, from: u64, length: u64) -> Steps
        ensures { (k : ℕ) → IsAmong result k ↔ ((k < length) × IsAmong self (from + k)) }
    {
        Steps {
            begin: self.begin.saturating_sub(from),
            end: self.end.saturating_sub(from).min(length),
        }
    }
}
