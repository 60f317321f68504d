//! Ids of lines and of crossings, and links to crossings.
ghost use Rattle.std.specs.Prelude.{◌≡◌, ◌<◌, ℕ, None, Some};

use std::marker::Model;

/// The id of a line of an arena, from its put to its removal.
#[derive(Clone, Copy, Debug, PartialEq, Eq, PartialOrd, Ord, Hash)]
pub struct LineId(usize);

/// The id of a crossing of an arena, from its put to its removal.
#[derive(Clone, Copy, Debug, PartialEq, Eq, PartialOrd, Ord, Hash)]
pub struct CrossId(usize);

/// A link to a crossing, or to none, in one machine word: the number in the crossing's id plus 1,
/// and 0 for none.
#[derive(Clone, Copy, Debug)]
pub struct Link(usize);

impl Model for LineId {
    ghost use Rattle.std.specs.Prelude.{ℕ};

    ghost Value = { ℕ };

    ghost view = { λ a. a.0 };

    ghost inverse = { λ n. record { 0 = n } };
}

impl Model for CrossId {
    ghost use Rattle.std.specs.Prelude.{◌<◌, ℕ};
    ghost use Rattle.std.below.core.specs.declared.int.usize.TheConstants.{MAX};

    ghost Value = { ℕ };

    ghost view = { λ a. a.0 };

    ghost inverse = { λ n. record { 0 = n } };

    // So that a link has a number for it.
    ghost invariant = { λ a. a.0 < MAX };
}

impl Model for Link {
    ghost use Rattle.std.specs.Prelude.{ℕ, Option};
    ghost use Rattle.line_arena.specs.Link.{linked, number_of, number_again};

    ghost Value = { Option ℕ };

    ghost view = { λ a. linked a.0 };

    ghost inverse = { λ o. record { 0 = number_of o } };

    ghost inverse_ok = { λ a h. λ i. record { 0 = number_again a.0 i } };
}

impl LineId {
    pub(crate) fn new(place: usize) -> LineId
        ensures { result ≡ place }
    {
        LineId(place)
    }

    pub(crate) fn place(self) -> usize
        ensures { result ≡ self }
    {
        self.0
    }
}

impl CrossId {
    /// The id with the number, whether or not there is a crossing.
    pub fn new(place: usize) -> CrossId
        requires { place < usize.MAX }
        ensures { result ≡ place }
    {
        CrossId(place)
    }

    pub(crate) fn place(self) -> usize
        ensures { result ≡ self }
    {
        self.0
    }
}

impl Link {
    /// A link to no crossing.
    pub(crate) fn none() -> Link
        ensures { result ≡ None }
    {
        Link(0)
    }

    /// A link to the crossing.
    pub(crate) fn to(crossing: CrossId) -> Link
        ensures { result ≡ Some crossing }
    {
        Link(crossing.0 + 1)
    }

    /// The crossing of the link.
    pub(crate) fn crossing(self) -> Option<CrossId>
        ensures { result ≡ self }
    {
        if self.0 == 0 {
            None
        } else {
            Some(CrossId(self.0 - 1))
        }
    }
}
