//! The public call, which balances and moves in turn, and returns the balanced network as a
//! solution.

ghost use Rattle.std.specs.Prelude.{◌≡◌, false, pos, All, IfOk, map};
ghost use Rattle.separation_model.specs.Bundle.{IsBundle};
ghost use Rattle.separation_model.specs.Certified.{IsAccepted};
ghost use Rattle.separation_model.specs.Gap.{IsGap};
ghost use Rattle.separation_model.specs.Least.{IsLeast};

use crate::fraction::Fraction;
use crate::network::Network;
use crate::reach::Reach;
use crate::rest::at_rest;
use bumpalo::Bump;
use separation_model::{Bundle, Solution};
use std::alloc::AllocError;

/// The least positions of the bundle for a gap in thousandths, from 0 to the widest, with
/// multipliers that show it. The solution and all that the call needs for it are in the arena. The
/// only error is out of memory.
///
/// The multipliers are a flow along rules and limits that are tight. It is pushed along paths (Ford
/// and Fulkerson, "Maximal flow through a network", 1956) from the items that are pulled to the
/// right, until each item is balanced or some of them are free to move together, as the blocks of
/// VPSC (Dwyer, Marriott and Stuckey, 2006). Those then move to their best place or to the first
/// contact.
pub fn solve<'a>(bump: &'a Bump, bundle: &Bundle, gap: i64) -> Result<Solution<'a>, AllocError>
    requires bundle { IsBundle bundle.now }
    requires gap { IsGap bundle.now gap }
    ensures gap { IfOk result (λ s. s.gap ≡ gap) }
    ensures accepted { IfOk result (IsAccepted bundle.now) }
    ensures least { IfOk result (λ s. IsLeast bundle.now s.gap s.den.items s.pos.items) }
{
    if bundle.rules.is_empty() {
        return at_rest(bump, bundle, gap);
    }
    let mut network = Network::new(bump, bundle, gap)?;
    let mut reach = Reach::new(bump, network.places.len())?;
    while network.balance(&mut reach)? {
        network.shift(&reach)?;
    }
    network.into_solution(bump, bundle, gap)
}

impl<'a> Network<'a> {
    ghost use Rattle.separation_solve.specs.Network.{IsNetworkOf, IsSound};

    /// The network's places and flow as a solution.
    fn into_solution(
        mut self,
        bump: &'a Bump,
        bundle: &Bundle,
        gap: i64,
    ) -> Result<Solution<'a>, AllocError>
        requires sound { IsSound self }
        requires balanced { All (λ z. z ≡ pos 0) self.excess.items }
        requires bundle { IsBundle bundle.now }
        requires gap { IsGap bundle.now gap }
        requires of_bundle { IsNetworkOf bundle.now gap self }
        ensures gap { IfOk result (λ s. s.gap ≡ gap) }
        ensures accepted { IfOk result (IsAccepted bundle.now) }
    {
        if self.mirrored {
            self.mirror();
        }
        self.solution(bump, bundle, gap)
    }

    /// The places and the flow of a network that is not mirrored.
    fn solution(
        &self,
        bump: &'a Bump,
        bundle: &Bundle,
        gap: i64,
    ) -> Result<Solution<'a>, AllocError>
        requires sound { IsSound self.now }
        requires balanced { All (λ z. z ≡ pos 0) self.now.excess.items }
        requires upright { self.now.mirrored ≡ false }
        requires bundle { IsBundle bundle.now }
        requires gap { IsGap bundle.now gap }
        requires of_bundle { IsNetworkOf bundle.now gap self.now }
        ensures gap { IfOk result (λ s. s.gap ≡ gap) }
        ensures accepted { IfOk result (IsAccepted bundle.now) }
    {
        let places = &self.places[..bundle.items.len()];
        let (mult, limits) = self.flow.split_at(bundle.rules.len());
        let (low, high) = limits.split_at(bundle.items.len());
        Ok(Solution {
            gap,
            den: denominators_of(bump, places)?,
            pos: numerators_of(bump, places)?,
            mult: mult.to_vec(bump)?,
            low: low.to_vec(bump)?,
            high: high.to_vec(bump)?,
        })
    }
}

fn denominators_of<'a>(
    bump: &'a Bump,
    places: &[Fraction],
) -> Result<Vec<u64, &'a Bump>, AllocError>
    ensures { IfOk result (λ v. v.items ≡ map (λ place. place.den) places.now) }
{
    places.iter().map(|place| place.den).collect(bump)
}

fn numerators_of<'a>(bump: &'a Bump, places: &[Fraction]) -> Result<Vec<i128, &'a Bump>, AllocError>
    ensures { IfOk result (λ v. v.items ≡ map (λ place. place.num) places.now) }
{
    places.iter().map(|place| place.num).collect(bump)
}
