//! The mirror image of a network, in which left and right are exchanged.

ghost use Rattle.std.specs.Prelude.{◌≡◌, ◌≤◌, map, neg_ℤ, not, All, unsigned_abs};
ghost use Rattle.plane_geom.specs.Point.{IsCoordinate};
ghost use Rattle.separation_solve.specs.Network.{IsSameBundle, IsSound, IsSpot, most_force, turned_link, turned_place, upright_places};

use crate::fraction::Fraction;
use crate::network::{Link, Network};

/// Exchanges the nodes of each link.
fn turn_links(links: &mut [Link])
    ensures { links.new ≡ map turned_link links.old }
{
    for index in 0..links.len() {
        let link = links[index];
        links[index] = Link {
            from: link.to,
            to: link.from,
            gap: link.gap,
        };
    }
}

fn turn_wants(wants: &mut [i64])
    requires { All IsCoordinate wants.old }
    ensures { wants.new ≡ map neg_ℤ wants.old }
{
    for index in 0..wants.len() {
        wants[index] = -wants[index];
    }
}

fn turn_places(places: &mut [Fraction])
    requires { All IsSpot places.old }
    ensures { places.new ≡ map turned_place places.old }
{
    for index in 0..places.len() {
        let place = places[index];
        places[index] = Fraction {
            num: -place.num,
            den: place.den,
        };
    }
}

fn turn_excess(excess: &mut [i128])
    requires { All (λ z. unsigned_abs z ≤ most_force) excess.old }
    ensures { excess.new ≡ map neg_ℤ excess.old }
{
    for index in 0..excess.len() {
        excess[index] = -excess[index];
    }
}

impl Network<'_> {
    /// Exchanges left and right.
    pub fn mirror(&mut self)
        requires { IsSound self.old }
        ensures sound { IsSound self.new }
        ensures same { IsSameBundle self.old self.new }
        ensures places { upright_places self.new ≡ upright_places self.old }
        ensures excess { self.new.excess.items ≡ map neg_ℤ self.old.excess.items }
        ensures mirrored { self.new.mirrored ≡ not self.old.mirrored }
    {
        self.mirrored = !self.mirrored;
        turn_links(&mut self.links);
        turn_wants(&mut self.wants);
        turn_places(&mut self.places);
        turn_excess(&mut self.excess);
    }
}
