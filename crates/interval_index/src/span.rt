//! Open intervals under keys.
ghost use Rattle.std.specs.Prelude.{◌≡◌};
ghost use Rattle.interval_index.specs.Order.{is_before};

/// The open interval from `lo` to `hi`, in thousandths of a GML unit, under a key.
#[derive(Clone, Copy, Debug, PartialEq, Eq, Hash)]
pub struct Span {
    pub key: u32,
    pub lo: i64,
    pub hi: i64,
}

impl Span {
    /// Whether the span comes before the other one: by `lo`, and then by `key`.
    pub(crate) fn is_before(&self, other: &Span) -> bool
        ensures { result ≡ is_before self.now other.now }
    {
        self.lo < other.lo || (self.lo == other.lo && self.key < other.key)
    }
}
