//! The tight links, listed at each node.

ghost use Rattle.std.specs.Prelude.{◌≡◌, ◌↔◌, IsTrue, OnOk, [], All, length};
ghost use Rattle.separation_solve.specs.Network.{AreKept, IsFrame, IsLink, IsSpot, IsTight, KeepsBundle, ListsTight};

use crate::fraction::Fraction;
use crate::network::{Link, Network};
use bumpalo::Bump;
use std::alloc::AllocError;

impl Link {
    /// Whether the distance of its nodes is exactly its gap.
    fn is_tight(self, places: &[Fraction]) -> bool
        requires spots { All IsSpot places.now }
        requires link { IsLink (length places.now) self }
        ensures { IsTrue result ↔ IsTight places.now self }
    {
        let from = places[self.from];
        let to = places[self.to];
        from.den == to.den && to.num - from.num == i128::from(self.gap) * i128::from(from.den)
    }
}

fn clear_lists(lists: &mut [Vec<usize, &Bump>])
    ensures count { length lists.new ≡ length lists.old }
    ensures empty { All (λ list. list.items ≡ []) lists.new }
{
    for list in lists.iter_mut() {
        list.clear();
    }
}

/// Lists each tight link at both its nodes.
fn list_tight(
    lists: &mut [Vec<usize, &Bump>],
    places: &[Fraction],
    links: &[Link],
) -> Result<(), AllocError>
    requires spots { All IsSpot places.now }
    requires links { All (IsLink (length places.now)) links.now }
    requires count { length lists.old ≡ length places.now }
    requires empty { All (λ list. list.items ≡ []) lists.old }
    ensures count { OnOk result (length lists.new ≡ length lists.old) }
    ensures tight { OnOk result (ListsTight places.now links.now lists.new) }
{
    for (index, link) in links.iter().enumerate() {
        if link.is_tight(places) {
            lists[link.from].push(index)?;
            lists[link.to].push(index)?;
        }
    }
    Ok(())
}

impl Network<'_> {
    /// Lists the tight links anew.
    pub fn relist(&mut self) -> Result<(), AllocError>
        requires frame { IsFrame self.old }
        requires kept { AreKept self.old }
        ensures frame { OnOk result (IsFrame self.new) }
        ensures kept { AreKept self.new }
        ensures tight { OnOk result
            (ListsTight self.new.places.items self.new.links.items self.new.tight.items) }
        ensures bundle { KeepsBundle self.old self.new }
        ensures places { self.new.places ≡ self.old.places }
    {
        clear_lists(&mut self.tight);
        list_tight(&mut self.tight, &self.places, &self.links)
    }
}
