//! The two ways of lines, vertical and horizontal, under one trait.
ghost use Rattle.std.specs.Prelude.{◌≡◌};

use crate::point::{Point, Way};

/// One of the two ways of lines, so that code for both is written once.
///
/// For a line, `across` is the coordinate at which it runs, and `along` is the coordinate that
/// varies from one end to the other.
pub trait Axis {
    ghost use Rattle.std.specs.Prelude.{◌≡◌, ℤ};
    ghost use Rattle.plane_geom.specs.declared.point.Point.{Point};
    ghost use Rattle.plane_geom.specs.declared.point.Way.{Way};
    ghost use Rattle.plane_geom.specs.Along.{across, along};
    ghost use Rattle.plane_geom.specs.Floor.{point_on};
    ghost use Rattle.plane_geom.specs.Point.{distance};

    ghost way_of: { Way };

    ghost across_of: { Point → ℤ };

    ghost along_of: { Point → ℤ };

    ghost point_of: { ℤ → ℤ → Point };

    /// The way of the lines.
    fn way() -> Way
        ensures { result ≡ way_of }
    {
        // Vertical lines run at one x.
        match Self::across(Point { x: 1, y: 0 }) {
            1 => Way::Vertical,
            _ => Way::Horizontal,
        }
    }

    /// The coordinate `across` of the line through the point.
    fn across(p: Point) -> i64
        ensures { result ≡ across_of p };

    /// The coordinate `along` of the point on that line.
    fn along(p: Point) -> i64
        ensures { result ≡ along_of p };

    /// The point with these coordinates.
    fn point(across: i64, along: i64) -> Point
        ensures { result ≡ point_of across along };

    /// The coordinates are those that the way defines.
    ghost across_by_way: { (p : Point) → across_of p ≡ across way_of p };

    ghost along_by_way: { (p : Point) → along_of p ≡ along way_of p };

    ghost point_by_way: { (a b : ℤ) → point_of a b ≡ point_on way_of a b };

    /// The point with the coordinates of a point is that point.
    ghost point_again: { (p : Point) → point_of (across_of p) (along_of p) ≡ p };

    ghost across_again: { (a b : ℤ) → across_of (point_of a b) ≡ a };

    ghost along_again: { (a b : ℤ) → along_of (point_of a b) ≡ b };

    /// Exchanging the two coordinates twice changes nothing.
    ghost swapped_twice: { (p : Point) →
        let swapped = λ (q : Point). point_of (along_of q) (across_of q) in swapped (swapped p) ≡ p };

    /// Exchanging the two coordinates keeps distances.
    ghost swapped_lengths: { (p q : Point) →
        distance (point_of (along_of p) (across_of p)) (point_of (along_of q) (across_of q)) ≡ distance p q };
}

/// Vertical lines, each at one x.
#[derive(Clone, Copy, Debug, PartialEq, Eq, Hash)]
pub struct XAxis;

/// Horizontal lines, each at one y.
#[derive(Clone, Copy, Debug, PartialEq, Eq, Hash)]
pub struct YAxis;

impl Axis for XAxis {
    ghost use Rattle.std.specs.Prelude.{refl};
    ghost use Rattle.plane_geom.specs.Axes.{turned_length};
    ghost use Rattle.plane_geom.specs.declared.point.Way.TheVariants.{Vertical};

    ghost way_of = { Vertical };

    ghost across_of = { λ p. p.x };

    ghost along_of = { λ p. p.y };

    ghost point_of = { λ a b. record { x = a; y = b } };

    ghost across_by_way = { λ p. refl };

    ghost along_by_way = { λ p. refl };

    ghost point_by_way = { λ a b. refl };

    ghost point_again = { λ p. refl };

    ghost across_again = { λ a b. refl };

    ghost along_again = { λ a b. refl };

    ghost swapped_twice = { λ p. refl };

    ghost swapped_lengths = { turned_length };

    fn across(p: Point) -> i64 {
        p.x
    }

    fn along(p: Point) -> i64 {
        p.y
    }

    fn point(across: i64, along: i64) -> Point {
        Point {
            x: across,
            y: along,
        }
    }
}

impl Axis for YAxis {
    ghost use Rattle.std.specs.Prelude.{refl};
    ghost use Rattle.plane_geom.specs.Axes.{turned_length};
    ghost use Rattle.plane_geom.specs.declared.point.Way.TheVariants.{Horizontal};

    ghost way_of = { Horizontal };

    ghost across_of = { λ p. p.y };

    ghost along_of = { λ p. p.x };

    ghost point_of = { λ a b. record { x = b; y = a } };

    ghost across_by_way = { λ p. refl };

    ghost along_by_way = { λ p. refl };

    ghost point_by_way = { λ a b. refl };

    ghost point_again = { λ p. refl };

    ghost across_again = { λ a b. refl };

    ghost along_again = { λ a b. refl };

    ghost swapped_twice = { λ p. refl };

    ghost swapped_lengths = { turned_length };

    fn across(p: Point) -> i64 {
        p.y
    }

    fn along(p: Point) -> i64 {
        p.x
    }

    fn point(across: i64, along: i64) -> Point {
        Point {
            x: along,
            y: across,
        }
    }
}
