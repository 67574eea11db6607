// Poses from numbers, and corners moved to the ends of a travel.
ghost use Rattle.std.specs.Prelude.{◌≡◌};
ghost use Rattle.integers.specs.Points.{◌+ᵛ◌};
ghost use Rattle.exact.specs.Spots.{heading, spot};
ghost use Rattle.poses.specs.Poses.{PoseOf, farther};

use crate::ends::Ends;
use crate::pose::Pose;
use crate::turn::Turn;
use exact::corner::{Corner, PartCorner};
use exact::direction::Direction;
use exact::point::Point;
use refusals::Refusal;

impl Pose {
    // The pose of these numbers: a turn 0 to 3, an offset within ±9 on each axis, and offset plus travel within ±9 too. Any other numbers are refused.
    pub fn new(turn: i64, offset: Point, travel: Point) -> Result<Pose, Refusal>
        ensures { PoseOf turn offset travel result }
    {
        let turn = Turn::try_from(turn)?;
        Ends::new(offset, travel).ok_or(Refusal::pose_out_of_range())?;
        Ok(Pose {
            turn,
            offset,
            travel,
        })
    }

    // A turned corner, moved to the end of the travel that lies farther along a direction: the travel is added exactly where its product with the direction is above 0.
    pub(crate) fn moved(self, corner: PartCorner, direction: Direction) -> Corner
        ensures { spot result ≡ spot corner +ᵛ farther (heading direction) self }
    {
        // Both ends of a pose are within ±9.
        let ends = Ends::new(self.offset, self.travel).unwrap();
        let start = corner + ends.start;
        let end = corner + ends.end;
        // `max_by_key(end, start, ..)` would hide in the order of its arguments that the start is taken where the two products are equal.
        if direction.product(end) > direction.product(start) {
            end
        } else {
            start
        }
    }
}
