//! Sends each item's deficit on in one linear sweep, so that less is left to the searches.

ghost use Rattle.std.specs.Prelude.{◌≡◌, ◌<◌, ◌^◌, pos, ◌+ℤ◌, ◌≤ℤ◌, ◌<ℤ◌, neg_ℤ, MatchOption, length, slice_set, sum_by, unsigned_abs};
ghost use Rattle.separation_model.specs.Bundle.{int_at};

use crate::network::Network;

/// The greatest sum of the forces of all items.
const MOST_FORCE: u128 = 92_480_000_000_000_000_000_000_000_000;

/// The sum of the absolute values.
fn sum_of_sizes(numbers: &[i128]) -> u128
    requires { sum_by unsigned_abs numbers.now < 2 ^ 128 }
    ensures { result ≡ sum_by unsigned_abs numbers.now }
{
    numbers.iter().map(|number| number.unsigned_abs()).sum()
}

/// Adds to the number at the index.
fn raise(numbers: &mut [i128], index: usize, by: i128)
    requires index { index < length numbers.old }
    requires small { unsigned_abs (int_at numbers.old index +ℤ by) < 2 ^ 127 }
    ensures { numbers.new ≡ slice_set numbers.old index (int_at numbers.old index +ℤ by) }
{
    numbers[index] += by;
}

impl Network<'_> {
    ghost use Rattle.separation_solve.specs.Network.{IsSound, KeepsBundle, items_of};
    ghost use Rattle.separation_solve.specs.Sweep.{IsBudget, LeadsOn, load};

    /// Sends each item's deficit on over one link, in the order in which rules go forward. So along
    /// a chain of tight rules no deficit is left but at its end.
    pub fn sweep(&mut self)
        requires { IsSound self.old }
        ensures sound { IsSound self.new }
        ensures bundle { KeepsBundle self.old self.new }
        ensures places { self.new.places ≡ self.old.places }
    {
        let mut left = self.budget();
        let items = self.wants.len();
        for index in 0..items {
            let item = if self.mirrored {
                items - 1 - index
            } else {
                index
            };
            left = self.send_on(item, left);
        }
    }

    /// How much may be sent with the flow still small. What bundles ask for is far below it.
    fn budget(&self) -> u128
        requires { IsSound self.now }
        ensures { IsBudget self.now result }
    {
        MOST_FORCE
            .saturating_sub(sum_of_sizes(&self.flow))
            .saturating_sub(sum_of_sizes(&self.excess))
    }

    /// Sends the item's deficit on over one tight link, and returns what is left of the budget.
    fn send_on(&mut self, item: usize, left: u128) -> u128
        requires sound { IsSound self.old }
        requires item { item < items_of self.old }
        requires budget { IsBudget self.old left }
        ensures sound { IsSound self.new }
        ensures budget { IsBudget self.new result }
        ensures bundle { KeepsBundle self.old self.new }
        ensures places { self.new.places ≡ self.old.places }
    {
        let amount = -self.excess[item];
        let size = amount.unsigned_abs();
        if amount <= 0 || left < size {
            return left;
        }
        let Some(link) = self.link_on(item) else {
            return left;
        };
        self.send_over(item, link, amount);
        left - size
    }

    /// The last tight link that leads on from the item: its upper limit, if that is tight.
    fn link_on(&self, item: usize) -> Option<usize>
        requires sound { IsSound self.now }
        requires item { item < items_of self.now }
        ensures { MatchOption result (Unit {0}) (LeadsOn self.now item) }
    {
        let mut last = None;
        for link in &self.tight[item] {
            if self.links[*link].from == item {
                last = Some(*link);
            }
        }
        last
    }

    /// Sends the item's deficit over the link.
    fn send_over(&mut self, item: usize, link: usize, amount: i128)
        requires sound { IsSound self.old }
        requires item { item < items_of self.old }
        requires link { LeadsOn self.old item link }
        requires amount { int_at self.old.excess.items item ≡ neg_ℤ amount }
        requires some { pos 0 <ℤ amount }
        requires budget { IsBudget self.old (unsigned_abs amount) }
        ensures sound { IsSound self.new }
        ensures gone { int_at self.new.excess.items item ≡ pos 0 }
        ensures load { load self.new ≤ℤ (load self.old +ℤ amount) }
        ensures bundle { KeepsBundle self.old self.new }
        ensures places { self.new.places ≡ self.old.places }
    {
        let to = self.links[link].to;
        raise(&mut self.flow, link, amount);
        raise(&mut self.excess, item, amount);
        if to != self.wall() {
            raise(&mut self.excess, to, -amount);
        }
    }
}
