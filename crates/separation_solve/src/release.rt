//! Removes all flow, and sets the excess that each item then has.

ghost use Rattle.std.specs.Prelude.{◌≡◌, ◌<◌, length};
ghost use Rattle.separation_solve.specs.Network.{AreKept, IsFrame, IsSound, KeepsBundle, ListsTight, force};

use crate::network::Network;
use separation_model::weighted_displacement;

impl Network<'_> {
    /// Removes all flow.
    pub fn release(&mut self)
        requires frame { IsFrame self.old }
        requires kept { AreKept self.old }
        requires tight { ListsTight self.old.places.items self.old.links.items self.old.tight.items }
        ensures sound { IsSound self.new }
        ensures bundle { KeepsBundle self.old self.new }
        ensures places { self.new.places ≡ self.old.places }
    {
        self.flow.fill(0);
        for item in 0..self.excess.len() {
            self.excess[item] = self.force(item);
        }
    }

    /// Twice the weighted displacement of the item, over its denominator.
    fn force(&self, item: usize) -> i128
        requires frame { IsFrame self.now }
        requires kept { AreKept self.now }
        requires item { item < length self.now.excess.items }
        ensures { result ≡ force self.now item }
    {
        let place = self.places[item];
        weighted_displacement(self.weights[item], self.wants[item], place.num, place.den)
    }
}
