//! The shape of a node for routing: its box, its solid, and the places of its pins.
ghost use Rattle.std.specs.Prelude.{◌≡◌, ◌^◌, ◌≤◌, ◌==◌, ◌+ℤ◌, ◌-ℤ◌, All, filter, option_to_list, unsigned_abs};
ghost use Rattle.plane_geom.specs.Point.{PointIsOnSheet};
ghost use Rattle.scene_model.specs.Routing.{box, buffered_box, pins_of_class, place_of, solid_of};
ghost use Rattle.scene_model.specs.Valid.{AreSettings, IsNode, IsPlaced};

use crate::node::Node;
use crate::pin::Pin;
use crate::settings::Settings;
use plane_geom::{Point, Rect, Solid};

/// The pins of class 0.
const CENTRE_ALONE: [Pin; 1] = [Pin::CENTRE];

/// The coordinate plus `by`.
fn moved(coordinate: i64, by: i64) -> i64
    requires near { unsigned_abs coordinate ≤ 10 ^ 9 }
    requires near_by { unsigned_abs by ≤ 10 ^ 9 }
    ensures { result ≡ coordinate +ℤ by }
{
    coordinate + by
}

/// The coordinate minus `by`.
fn moved_back(coordinate: i64, by: i64) -> i64
    requires near { unsigned_abs coordinate ≤ 10 ^ 9 }
    requires near_by { unsigned_abs by ≤ 10 ^ 9 }
    ensures { result ≡ coordinate -ℤ by }
{
    coordinate - by
}

impl Node {
    /// The node's box. The node is valid, like each node of a valid scene.
    pub fn rect(&self) -> Rect
        requires { IsNode self.now }
        ensures { result ≡ box self.now }
    {
        Rect {
            left: moved_back(self.x, self.half_w),
            top: moved_back(self.y, self.half_h),
            right: moved(self.x, self.half_w),
            bottom: moved(self.y, self.half_h),
        }
    }

    /// The node's box grown by the buffer. Node and settings are valid.
    pub fn buffered_rect(&self, settings: Settings) -> Rect
        requires node { IsNode self.now }
        requires settings { AreSettings settings }
        ensures { result ≡ buffered_box settings.buffer self.now }
    {
        self.rect().grow(settings.buffer)
    }

    /// The node's solid: its box grown by the buffer. A group has none. Node and settings are
    /// valid.
    pub fn solid(&self, settings: Settings) -> Option<Solid>
        requires node { IsNode self.now }
        requires settings { AreSettings settings }
        ensures { option_to_list result ≡ solid_of settings.buffer self.now }
    {
        if self.group {
            return None;
        }
        Some(Solid {
            node: self.id,
            rect: self.buffered_rect(settings),
        })
    }

    /// The place of the pin. The node is valid, and the pin lies in its closed box.
    pub fn place_of(&self, pin: Pin) -> Point
        requires node { IsNode self.now }
        requires pin { IsPlaced self.now pin }
        ensures place { result ≡ place_of self.now pin }
        ensures on_sheet { PointIsOnSheet result }
    {
        Point {
            x: moved(self.x, pin.dx),
            y: moved(self.y, pin.dy),
        }
    }

    /// Pins of the node that include all those of the class: only the centre for class 0, otherwise
    /// the pins that were added to it. The node is valid.
    pub fn pins_among(&self, class: u32) -> &[Pin]
        requires { IsNode self.now }
        ensures class { filter (λ p. p.class == class) result.now ≡ pins_of_class self.now class }
        ensures placed { All (IsPlaced self.now) result.now }
    {
        if class == 0 {
            &CENTRE_ALONE
        } else {
            self.pins.as_slice()
        }
    }
}
