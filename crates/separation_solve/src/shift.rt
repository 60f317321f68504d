//! A block that moves to the right: to its weighted mean, or to the first contact.

ghost use Rattle.std.specs.Prelude.{◌≡◌, ◌≤◌, ◌<◌, ◌≤ℤ◌, ◌+ℤ◌, ◌-ℤ◌, ◌*ℤ◌, EachIndex, MatchOption, OnOk, pos, negsuc, length, unsigned_abs};
ghost use Rattle.separation_solve.specs.Fraction.{IsLight, IsNotBeyond};
ghost use Rattle.plane_geom.specs.Point.{IsCoordinate};
ghost use Rattle.separation_solve.specs.Network.{IsSound, KeepsBundle, items_of, link_at};
ghost use Rattle.separation_solve.specs.Reach.{IsBlock, IsReach, start_of};
ghost use Rattle.separation_solve.specs.Block.{ChangesPlaces, IsAim, IsContact, IsFound, LeadsOut, StaysKept, PlacesBlock, block_moment, block_weight, objective, offset_of};

use crate::fraction::Fraction;
use crate::network::Network;
use crate::reach::Reach;
use std::alloc::AllocError;

/// The distance from the offset to the want, times the weight.
fn moment_of(weight: u32, want: i64, offset: i64) -> i128
    requires weight { weight ≤ 4 }
    requires want { IsCoordinate want }
    requires low { negsuc 3999999999 ≤ℤ offset }
    requires high { offset ≤ℤ pos 4000000000 }
    ensures { result ≡ pos weight *ℤ (want -ℤ offset) }
{
    i128::from(weight) * i128::from(want - offset)
}

impl Reach<'_> {
    /// The distance to the right of the start at which the node was reached, if it was.
    fn offset(&self, node: usize) -> Option<i64>
        requires node { node < length self.now.found.items }
        requires steps { IsFound self.now }
        ensures { result ≡ offset_of self.now node }
    {
        let step = self.found[node]?;
        Some(self.steps[step].offset)
    }
}

impl Network<'_> {
    /// Moves the nodes that were reached to the right, all by the same distance: to their best
    /// place, or to the first contact.
    pub fn shift(&mut self, block: &Reach) -> Result<(), AllocError>
        requires sound { IsSound self.old }
        requires block { IsBlock self.old (start_of block.now) block.now }
        ensures sound { OnOk result (IsSound self.new) }
        ensures falls { OnOk result
            (unsigned_abs (objective self.new) < unsigned_abs (objective self.old)) }
        ensures bundle { KeepsBundle self.old self.new }
    {
        let best = self.best_place(block);
        let place = self.first_contact(block, best);
        self.move_block(block, place);
        self.relist()?;
        self.release();
        Ok(())
    }

    /// The place of the start if only the nodes that were reached counted: their weighted mean.
    fn best_place(&self, block: &Reach) -> Fraction
        requires sound { IsSound self.now }
        requires block { IsBlock self.now (start_of block.now) block.now }
        ensures aim { IsAim self.now (start_of block.now) result }
        ensures mean { ((block_weight self.now block.now (items_of self.now) *ℤ result.num)
            +ℤ (pos result.den *ℤ block_moment self.now block.now (items_of self.now))) ≡ pos 0 }
    {
        let mut weight: u64 = 0;
        let mut moment: i128 = 0;
        for item in 0..self.wants.len() {
            if let Some(offset) = block.offset(item) {
                weight += u64::from(self.weights[item]);
                moment += moment_of(self.weights[item], self.wants[item], offset);
            }
        }
        Fraction::ratio(moment, weight)
    }

    /// The first place of the start at which a link to a node outside is tight, or the best one if
    /// that comes first.
    fn first_contact(&self, block: &Reach, best: Fraction) -> Fraction
        requires sound { IsSound self.now }
        requires block { IsBlock self.now (start_of block.now) block.now }
        requires best { IsAim self.now (start_of block.now) best }
        ensures aim { IsAim self.now (start_of block.now) result }
        ensures not_beyond { IsNotBeyond result best }
        ensures stays { EachIndex self.now.links.items (λ j.
            StaysKept self.now block.now result (link_at self.now.links.items j)) }
    {
        let mut place = best;
        for index in 0..self.links.len() {
            if let Some(contact) = self.contact(block, index) {
                place = contact.min(place);
            }
        }
        place
    }

    /// The place of the start at which the link is tight, if it leads from a node that was reached
    /// to one that was not.
    fn contact(&self, block: &Reach, index: usize) -> Option<Fraction>
        requires sound { IsSound self.now }
        requires block { IsBlock self.now (start_of block.now) block.now }
        requires link { index < length self.now.links.items }
        ensures { MatchOption result (¬ LeadsOut block.now (link_at self.now.links.items index))
            (λ contact. IsContact self.now (start_of block.now) block.now
            (link_at self.now.links.items index) contact) }
    {
        let link = self.links[index];
        let offset = block.offset(link.from)?;
        if block.offset(link.to).is_some() {
            return None;
        }
        Some(self.places[link.to].moved(-link.gap - offset))
    }

    /// Moves the nodes that were reached along with the start, which moves to this place.
    fn move_block(&mut self, block: &Reach, place: Fraction)
        requires sound { IsSound self.old }
        requires reach { IsReach self.old (start_of block.now) block.now }
        requires light { IsLight place }
        ensures placed { PlacesBlock self.old.places.items (items_of self.old) block.now place
            self.new.places.items }
        ensures rest { ChangesPlaces self.old self.new }
    {
        for item in 0..self.wants.len() {
            if let Some(offset) = block.offset(item) {
                self.places[item] = place.moved(offset);
            }
        }
    }
}
