//! Runs with their limits, and which of them are linked.
ghost use Rattle.std.specs.Prelude.{◌≡◌, ◌↔◌, ◌+ℤ◌, ◌≤ℤ◌, IsTrue, true, Some};
ghost use Rattle.channel_bundles.specs.Kept.{Hides};
ghost use Rattle.channel_bundles.specs.Links.{IsMember, IsNudge, asks, asks_movable, is_second_next, item_of, link, overlap, presses};

use segment_order::Run;
use separation_model::Item;

/// A run of the phase's way, with the coordinates from `low` to `high` at which it may be.
///
/// A fixed run may only stay at its coordinate. The weight, from 1 to 4, is that of its route.
#[derive(Clone, Copy, Debug, PartialEq, Eq)]
pub struct Member {
    pub run: Run,
    pub fixed: bool,
    pub low: i64,
    pub high: i64,
    pub weight: u32,
}

/// Whether the ranges of the two runs share more than a point.
fn overlap(r: &Run, s: &Run) -> bool
    ensures { result ≡ overlap r.now s.now }
{
    r.lo.max(s.lo) < r.hi.min(s.hi)
}

/// Whether the two runs are next but one to each other in their route.
fn is_second_next(r: &Run, s: &Run) -> bool
    ensures { result ≡ is_second_next r.now s.now }
{
    u64::from(r.place) + 2 == u64::from(s.place) || u64::from(s.place) + 2 == u64::from(r.place)
}

/// What two runs that are not both fixed require of each other: a separation (true), a join
/// (false), or nothing.
fn asks_movable(r: &Run, s: &Run) -> Option<bool>
    ensures { result ≡ asks_movable r.now s.now }
{
    if r.edge == s.edge {
        is_second_next(r, s).then_some(false)
    } else {
        overlap(r, s).then_some(true)
    }
}

impl Member {
    /// What the two runs require of each other: a separation (true), a join (false), or nothing.
    fn asks(&self, later: &Member) -> Option<bool>
        ensures { result ≡ asks self.now later.now }
    {
        if self.fixed && later.fixed {
            None
        } else {
            asks_movable(&self.run, &later.run)
        }
    }

    /// Whether the limits alone do not keep the runs apart as far as is required.
    fn presses(&self, later: &Member, nudge: i64, spaced: bool) -> bool
        requires member { IsMember self.now }
        requires nudge { IsNudge nudge }
        ensures { result ≡ presses nudge self.now later.now spaced }
    {
        later.low < if spaced { self.high + nudge } else { self.high }
    }

    /// The rule that links the run to a later one, where the limits alone do not keep them apart;
    /// true where it is spaced.
    pub(crate) fn link(&self, later: &Member, nudge: i64) -> Option<bool>
        requires member { IsMember self.now }
        requires nudge { IsNudge nudge }
        ensures { result ≡ link nudge self.now later.now }
    {
        let spaced = self.asks(later)?;
        self.presses(later, nudge, spaced).then_some(spaced)
    }

    /// Whether the run is linked to no later run whose lower limit is `low` or more.
    pub(crate) fn is_clear_of(&self, low: i64, nudge: i64) -> bool
        requires member { IsMember self.now }
        requires nudge { IsNudge nudge }
        ensures { IsTrue result ↔ ((self.now.high +ℤ nudge) ≤ℤ low) }
    {
        self.high + nudge <= low
    }

    /// Whether a spaced rule links the run to a later one.
    pub(crate) fn is_apart(&self, later: &Member, nudge: i64) -> bool
        requires member { IsMember self.now }
        requires nudge { IsNudge nudge }
        ensures { IsTrue result → link nudge self.now later.now ≡ Some true }
    {
        matches!(self.link(later, nudge), Some(true))
    }

    /// Whether this run hides the other from behind: it may move, covers the range of the other, and
    /// reaches as far.
    pub(crate) fn hides(&self, other: &Member) -> bool
        ensures { IsTrue result → Hides self.now other.now }
    {
        let covers = self.run.lo <= other.run.lo && other.run.hi <= self.run.hi;
        !self.fixed && covers && other.high <= self.high
    }

    /// The run as an item of a bundle, wanted at its present coordinate.
    pub(crate) fn item(&self) -> Item
        ensures { result ≡ item_of self.now }
    {
        Item {
            want: self.run.at,
            lo: self.low,
            hi: self.high,
            weight: self.weight,
        }
    }
}
