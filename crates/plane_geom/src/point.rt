//! Points, directions and ways.
ghost use Rattle.std.specs.Prelude.{◌≡◌, ◌↔◌, IsTrue};
ghost use Rattle.plane_geom.specs.Point.{IsCoordinate, is_coordinate};

/// The least coordinate of the sheet.
pub const SHEET_START: i64 = -2_000_000_000;

/// The greatest coordinate of the sheet.
pub const SHEET_END: i64 = 2_000_000_000;

/// Whether `z` is a coordinate of the sheet.
pub fn is_coordinate(z: i64) -> bool
    ensures test { result ≡ is_coordinate z }
    ensures meaning { IsTrue result ↔ IsCoordinate z }
{
    SHEET_START <= z && z <= SHEET_END
}

/// A place on the plane, in thousandths of a GML unit.
#[derive(Clone, Copy, Debug, Default, PartialEq, Eq, Hash)]
pub struct Point {
    pub x: i64,
    pub y: i64,
}

/// A direction of travel. East is +x and South is +y.
#[derive(Clone, Copy, Debug, PartialEq, Eq, PartialOrd, Ord, Hash)]
pub enum Dir {
    East,
    South,
    West,
    North,
}

/// The way of a straight line: vertical or horizontal.
#[derive(Clone, Copy, Debug, PartialEq, Eq, PartialOrd, Ord, Hash)]
pub enum Way {
    Vertical,
    Horizontal,
}

impl Dir {
    ghost use Rattle.plane_geom.specs.Along.{way_of};
    ghost use Rattle.plane_geom.specs.Point.{opposite};

    /// The opposite direction.
    pub fn opposite(self) -> Dir
        ensures { result ≡ opposite self }
    {
        match self {
            Dir::East => Dir::West,
            Dir::South => Dir::North,
            Dir::West => Dir::East,
            Dir::North => Dir::South,
        }
    }

    /// The way of the lines along which one travels in this direction.
    pub fn way(self) -> Way
        ensures { result ≡ way_of self }
    {
        match self {
            Dir::East | Dir::West => Way::Horizontal,
            Dir::South | Dir::North => Way::Vertical,
        }
    }
}

impl Point {
    ghost use Rattle.plane_geom.specs.Along.{across, along};
    ghost use Rattle.plane_geom.specs.Point.{IsStraight, PointIsOnSheet, distance, forward, heading};

    /// Whether the point lies on the sheet.
    pub fn is_on_sheet(self) -> bool
        ensures { IsTrue result ↔ PointIsOnSheet self }
    {
        is_coordinate(self.x) && is_coordinate(self.y)
    }

    /// The sum of the distances along both axes: the number of unit steps to the other point.
    ///
    /// Both points lie on the sheet.
    pub fn distance(self, other: Point) -> u64
        requires from_within { PointIsOnSheet self }
        requires to_within { PointIsOnSheet other }
        ensures { result ≡ distance self other }
    {
        self.x.abs_diff(other.x) + self.y.abs_diff(other.y)
    }

    /// The direction of the straight segment to the other point, and North if the two points are
    /// equal.
    pub fn heading(self, other: Point) -> Dir
        ensures heading { result ≡ heading self other }
        ensures leads { IsStraight self other → forward (heading self other) (distance self other) self ≡ other }
    {
        if self.x < other.x {
            Dir::East
        } else if other.x < self.x {
            Dir::West
        } else if self.y < other.y {
            Dir::South
        } else {
            Dir::North
        }
    }

    /// The coordinate of the line of this way through the point: x for a vertical line, y for a
    /// horizontal one.
    pub fn across(self, way: Way) -> i64
        ensures { result ≡ across way self }
    {
        match way {
            Way::Vertical => self.x,
            Way::Horizontal => self.y,
        }
    }

    /// The position of the point on that line: y on a vertical line, x on a horizontal one.
    pub fn along(self, way: Way) -> i64
        ensures { result ≡ along way self }
    {
        match way {
            Way::Vertical => self.y,
            Way::Horizontal => self.x,
        }
    }

    /// The point `steps` unit steps away in the direction. Both points lie on the sheet.
    pub fn forward(self, dir: Dir, steps: u64) -> Point
        requires within { PointIsOnSheet self }
        requires ends_within { PointIsOnSheet (forward dir steps self) }
        ensures { result ≡ forward dir steps self }
    {
        let steps = steps as i64;
        match dir {
            Dir::East => Point {
                x: self.x + steps,
                y: self.y,
            },
            Dir::South => Point {
                x: self.x,
                y: self.y + steps,
            },
            Dir::West => Point {
                x: self.x - steps,
                y: self.y,
            },
            Dir::North => Point {
                x: self.x,
                y: self.y - steps,
            },
        }
    }
}
