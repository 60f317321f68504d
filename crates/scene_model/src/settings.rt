//! The settings of a scene.

/// The settings of a scene, in thousandths.
#[derive(Clone, Copy, Debug, PartialEq, Eq)]
pub struct Settings {
    /// The cost of a bend, from 1 to 10^9.
    pub penalty: i64,
    /// The distance by which solids extend beyond their boxes, from 1 to 10^6.
    pub buffer: i64,
    /// The distance to which nudging tries to move runs apart, from 0 to 10^6.
    pub nudge: i64,
}

/// The name of a setting.
#[derive(Clone, Copy, Debug, PartialEq, Eq)]
pub enum Setting {
    Penalty,
    Buffer,
    Nudge,
}
