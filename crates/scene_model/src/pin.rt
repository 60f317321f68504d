//! Pins of nodes, and the directions in which routes may leave them.
ghost use Rattle.std.specs.Prelude.{◌≡◌, ◌<◌, ◌==◌, [], ◌∷◌, ◌++◌, length, remove, IfOk, OnOk, OnErr};
ghost use Rattle.std.specs.List.{list_any};

use std::alloc::{AllocError, Global};
use std::marker::Model;

/// The directions in which routes may leave a pin.
#[derive(Clone, Copy, Debug, PartialEq, Eq)]
pub struct Dirs {
    pub east: bool,
    pub south: bool,
    pub west: bool,
    pub north: bool,
}

impl Dirs {
    ghost use Rattle.scene_model.specs.Letters.{dirs_of};
    ghost use Rattle.scene_model.specs.LetterSteps.{with_letter};

    /// All four directions.
    pub const ALL: Dirs = Dirs {
        east: true,
        south: true,
        west: true,
        north: true,
    };

    /// East alone.
    pub const EAST: Dirs = Dirs {
        east: true,
        south: false,
        west: false,
        north: false,
    };

    /// South alone.
    pub const SOUTH: Dirs = Dirs {
        east: false,
        south: true,
        west: false,
        north: false,
    };

    /// West alone.
    pub const WEST: Dirs = Dirs {
        east: false,
        south: false,
        west: true,
        north: false,
    };

    /// North alone.
    pub const NORTH: Dirs = Dirs {
        east: false,
        south: false,
        west: false,
        north: true,
    };

    /// The directions that one to four different letters of E, S, W and N spell; `None` for any
    /// other letters. Reads no letter after the first that is another one or occurs twice.
    pub fn from_letters(letters: &[u8]) -> Option<Dirs>
        ensures { result ≡ dirs_of letters.now }
    {
        let mut dirs = Dirs {
            east: false,
            south: false,
            west: false,
            north: false,
        };
        for letter in letters {
            dirs = dirs.with_letter(*letter)?;
        }
        if letters.is_empty() { None } else { Some(dirs) }
    }

    /// The directions with that of the letter added, if the letter stands for one that is not among
    /// them yet.
    fn with_letter(self, letter: u8) -> Option<Dirs>
        ensures { result ≡ with_letter self letter }
    {
        match letter {
            b'E' if !self.east => Some(Dirs { east: true, ..self }),
            b'S' if !self.south => Some(Dirs {
                south: true,
                ..self
            }),
            b'W' if !self.west => Some(Dirs { west: true, ..self }),
            b'N' if !self.north => Some(Dirs {
                north: true,
                ..self
            }),
            _ => None,
        }
    }
}

/// A pin that was added to a node, by its offset from the node's centre.
///
/// The offset and the cost are in thousandths.
#[derive(Clone, Copy, Debug, PartialEq, Eq)]
pub struct Pin {
    /// From 1 to 65535.
    pub class: u32,
    pub dx: i64,
    pub dy: i64,
    pub dirs: Dirs,
    /// The cost that using the pin adds to a route, at most 10^9.
    pub cost: i64,
}

impl Pin {
    /// The pin of class 0, which each node has at its centre.
    pub const CENTRE: Pin = Pin {
        class: 0,
        dx: 0,
        dy: 0,
        dirs: Dirs::ALL,
        cost: 0,
    };
}

/// Whether one of the pins has the class.
pub fn any_of_class(pins: &[Pin], class: u32) -> bool
    ensures { result ≡ list_any (λ p. p.class == class) pins.now }
{
    pins.iter().any(|p| p.class == class)
}

/// The pins of a node, in order.
#[derive(Debug, Drop)]
pub struct Pins(pub Vec<Pin>);

impl Model for Pins {
    ghost use Rattle.std.specs.Prelude.{List};
    ghost use Rattle.scene_model.specs.declared.pin.Pin.{Pin};

    ghost Value = { List Pin };

    ghost view = { λ p. p.0.items };
}

impl Pins {
    /// The pins, in order.
    pub fn as_slice(&self) -> &[Pin]
        ensures { result.now ≡ self.now }
    {
        &self.0
    }

    /// A copy of the pins. The only error is out of memory.
    pub fn copy(&self, alloc: Global) -> Result<Pins, AllocError>
        ensures { IfOk result (λ p. p ≡ self.now) }
    {
        Ok(Pins(Vec::from_slice(alloc, &self.0)?))
    }

    /// Appends a pin. The only error is out of memory, which leaves everything as it was.
    pub fn push(&mut self, pin: Pin) -> Result<(), AllocError>
        ensures ok { OnOk result (self.new ≡ self.old ++ pin ∷ []) }
        ensures err { OnErr result (self.new ≡ self.old) }
    {
        self.0.push(pin)?;
        Ok(())
    }

    /// Removes the pin at the place, from 0.
    pub fn remove(&mut self, place: usize)
        requires { place < length self.old }
        ensures { self.new ≡ remove self.old place }
    {
        self.0.remove(place);
    }
}
