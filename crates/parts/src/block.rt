// A box of corners of parts, by its low and its high corner.
ghost use Rattle.std.specs.Prelude.{◌≡◌};
ghost use Rattle.exact.specs.Spots.{spot};
ghost use Rattle.parts.specs.Boxes.{taken, vertex};

use crate::octant::{Octant, Side};
use exact::corner::PartCorner;

// The low and the high corner travel together; the other six are made of their numbers.
#[derive(Clone, Copy)]
pub struct Block {
    pub low: PartCorner,
    pub high: PartCorner,
}

impl Side {
    // What the side takes of two coordinates.
    fn of(self, low: i8, high: i8) -> i8
        ensures { result ≡ taken self low high }
    {
        match self {
            Side::Low => low,
            Side::High => high,
        }
    }
}

impl Block {
    // One of the eight corners.
    pub fn corner(self, octant: Octant) -> PartCorner
        ensures { spot result ≡ vertex (spot self.low) (spot self.high) octant }
    {
        PartCorner {
            x: octant.x.of(self.low.x, self.high.x),
            y: octant.y.of(self.low.y, self.high.y),
            z: octant.z.of(self.low.z, self.high.z),
        }
    }
}
