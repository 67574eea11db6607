// A pose: how a part is turned, where it is put, and how far it then travels.
ghost use Rattle.integers.specs.Points.{◌+ᵛ◌};
ghost use Rattle.integers.specs.Space.{Near};
ghost use Rattle.exact.specs.Space.{at, Within};

use crate::turn::Turn;
use exact::point::Point;

// The offset is within ±9 on each axis, and so is the offset plus the travel. The numbers stay as they were given, by which a pose is named; the two
// ends that they make are worked out where a corner is moved.
#[derive(Clone, Copy)]
pub struct Pose {
    pub turn: Turn,
    pub offset: Point,
    pub travel: Point,
    ghost near: { Within 9 offset },
    ghost reach: { Near 9 (at offset +ᵛ at travel) },
}
