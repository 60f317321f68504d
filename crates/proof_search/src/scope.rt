//! Which walks a search labels.
ghost use Rattle.std.specs.Prelude.{◌≡◌};
ghost use Rattle.proof_search.specs.Scopes.{label_for};

/// Which walks a search labels, and with what.
#[derive(Clone, Copy, Debug)]
pub enum Scope {
    /// Those that cost less than this, each with its cost.
    Below(u64),
    /// All, each with 0.
    Every,
}

impl Scope {
    /// The label that a walk of this cost gives to the place that it reaches, if it gives one.
    pub fn label(self, cost: u64) -> Option<u64>
        ensures { result ≡ label_for self cost }
    {
        match self {
            Scope::Below(most) if cost < most => Some(cost),
            Scope::Below(_) => None,
            Scope::Every => Some(0),
        }
    }
}
