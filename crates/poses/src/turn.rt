// The quarter turns about the z axis, from x towards y: by their numbers, undone, and what they turn.
ghost use Rattle.std.specs.Prelude.{◌≡◌};
ghost use Rattle.exact.specs.Spots.{heading};
ghost use Rattle.poses.specs.Poses.{Numbered, turned as turned_of, back as back_of};

use exact::direction::Direction;
use parts::moves::Movable;
use refusals::Refusal;

// A turn by 0 to 3 quarters.
#[derive(Clone, Copy, PartialEq, Eq, Debug)]
pub enum Turn {
    Straight,
    Quarter,
    Half,
    ThreeQuarters,
}

// The turn by a number of quarters, refused as a pose out of range where it is not 0 to 3.
impl TryFrom<i64> for Turn {
    type Error = Refusal;

    ghost try_from_gives = { Numbered };

    fn try_from(quarters: i64) -> Result<Turn, Refusal> {
        match quarters {
            0 => Ok(Turn::Straight),
            1 => Ok(Turn::Quarter),
            2 => Ok(Turn::Half),
            3 => Ok(Turn::ThreeQuarters),
            _ => Err(Refusal::pose_out_of_range()),
        }
    }
}

impl Turn {
    // The turn that undoes it.
    fn back(self) -> Turn
        ensures { result ≡ back_of self }
    {
        match self {
            Turn::Straight => Turn::Straight,
            Turn::Quarter => Turn::ThreeQuarters,
            Turn::Half => Turn::Half,
            Turn::ThreeQuarters => Turn::Quarter,
        }
    }

    // A corner or a direction, turned.
    pub fn turned<T: Movable>(self, value: T) -> T
        ensures { T.Movable.numbers result ≡ turned_of self (T.Movable.numbers value) }
    {
        match self {
            Turn::Straight => value,
            Turn::Quarter => value.quarter_turned(),
            Turn::Half => value.quarter_turned().quarter_turned(),
            Turn::ThreeQuarters => value.quarter_turned().quarter_turned().quarter_turned(),
        }
    }

    // A direction, turned back: along it a corner has the product that the turned corner has along the direction.
    pub(crate) fn turned_back(self, direction: Direction) -> Direction
        ensures { heading result ≡ turned_of (back_of self) (heading direction) }
    {
        self.back().turned(direction)
    }
}
