//! Points, directions, rectangles and lines on the plane of a diagram.
//!
//! Coordinates are whole thousandths of a GML unit. East is +x and South is +y.
#![tactic(auto)]

mod axis;
mod floor;
mod list;
mod point;
mod rect;

pub use axis::{Axis, XAxis, YAxis};
pub use floor::{Floor, Line, free_pieces_have_longest, kept_lines_apart, kept_lines_are_wide};
pub use list::{Points, Solids};
pub use point::{Dir, Point, SHEET_END, SHEET_START, Way, is_coordinate};
pub use rect::{Rect, Solid, meets_by_steps};
