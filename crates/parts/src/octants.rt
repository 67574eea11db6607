// Which of the eight corners of a box is meant: by its number, or by a direction.
ghost use Rattle.std.specs.Prelude.{◌≡◌, ◌%◌, pos, if◌then◌else◌, Some};
ghost use Rattle.std.specs.List.{slice_get};
ghost use Rattle.exact.specs.Spots.{heading};
ghost use Rattle.parts.specs.declared.octant.Side.TheVariants.{Low, High};
ghost use Rattle.parts.specs.Boxes.{octants, towards as towards_of};

use crate::octant::{Octant, Side};
use exact::direction::Direction;

// The high side where a test holds, of a bit or of a direction's sign.
impl From<bool> for Side {
    ghost from_gives = { λ test side. side ≡ (if test then High else Low) };

    fn from(test: bool) -> Side {
        if test { Side::High } else { Side::Low }
    }
}

impl Octant {
    // The corner with the number k mod 8: its bits 4, 2 and 1 stand for x, y and z, and a set bit for the high side.
    pub fn numbered(k: usize) -> Octant
        ensures { slice_get octants (k % 8) ≡ Some result }
    {
        Octant {
            x: Side::from(k % 8 >= 4),
            y: Side::from(k % 4 >= 2),
            z: Side::from(k % 2 == 1),
        }
    }

    // The corner that lies farthest along a direction: high exactly where the direction's number is above 0.
    pub fn towards(direction: Direction) -> Octant
        ensures { result ≡ towards_of (heading direction) }
    {
        let d = direction.along;
        Octant {
            x: Side::from(d.x > 0),
            y: Side::from(d.y > 0),
            z: Side::from(d.z > 0),
        }
    }
}
