// Corners and directions from points, and back; their sums, products and squares.
ghost use Rattle.std.specs.Prelude.{◌≡◌, MatchBool, min};
ghost use Rattle.integers.specs.Points.{dot, ◌+ᵛ◌};
ghost use Rattle.exact.specs.Space.{at, Within};
ghost use Rattle.exact.specs.Spots.{spot, heading, Reached, Headed};

use crate::corner::{Corner, PartCorner, Shift, Spot};
use crate::direction::Direction;
use crate::point::Point;
use crate::too_far::TooFar;
use refusals::Refusal;
use std::ops::Add;

impl Point {
    // Whether each coordinate is within ±limit.
    pub fn is_within(self, limit: u64) -> bool
        ensures { MatchBool result (Within limit self) (Within limit self → ⊥) }
    {
        self.x.unsigned_abs() <= limit
            && self.y.unsigned_abs() <= limit
            && self.z.unsigned_abs() <= limit
    }
}

// The corner at a point, where no coordinate is beyond ±REACH, or ±127, which is what a byte holds.
impl<const REACH: u8> TryFrom<Point> for Spot<REACH> {
    type Error = TooFar;

    ghost try_from_gives = { λ p r. Reached (min REACH 127) (at p) r };

    fn try_from(p: Point) -> Result<Spot<REACH>, TooFar> {
        let reach = REACH.min(127);
        if !p.is_within(u64::from(reach)) {
            return Err(TooFar { reach });
        }
        // `i8::try_from` would test the same bounds once more.
        Ok(Spot {
            x: p.x as i8,
            y: p.y as i8,
            z: p.z as i8,
        })
    }
}

// The point where a corner lies.
impl<const REACH: u8> From<Spot<REACH>> for Point {
    ghost from_gives = { λ c p. at p ≡ spot c };

    fn from(c: Spot<REACH>) -> Point {
        Point {
            x: i64::from(c.x),
            y: i64::from(c.y),
            z: i64::from(c.z),
        }
    }
}

// The corner of a body that lies where a part's corner does.
impl From<PartCorner> for Corner {
    ghost from_gives = { λ c d. spot d ≡ spot c };

    fn from(c: PartCorner) -> Corner {
        Spot {
            x: c.x,
            y: c.y,
            z: c.z,
        }
    }
}

// A part's corner, moved.
impl Add<Shift> for PartCorner {
    type Output = Corner;

    ghost add_gives = { λ c m d. spot d ≡ spot c +ᵛ spot m };

    fn add(self, by: Shift) -> Corner {
        Spot {
            x: self.x + by.x,
            y: self.y + by.y,
            z: self.z + by.z,
        }
    }
}

impl Corner {
    // The square of the corner: its product with itself.
    pub fn square(self) -> i64
        ensures { result ≡ dot (spot self) (spot self) }
    {
        let along = Direction {
            along: Point::from(self),
        };
        along.product(self)
    }
}

// The direction of three numbers, refused where one is beyond ±2,000,000,000.
impl TryFrom<Point> for Direction {
    type Error = Refusal;

    ghost try_from_gives = { λ p r. Headed (at p) r };

    fn try_from(p: Point) -> Result<Direction, Refusal> {
        if !p.is_within(2000000000) {
            return Err(Refusal::direction_too_long());
        }
        Ok(Direction { along: p })
    }
}

impl Direction {
    // The product of the direction and a corner: the three products of like coordinates, added.
    pub fn product(self, corner: Corner) -> i64
        ensures { result ≡ dot (heading self) (spot corner) }
    {
        let d = self.along;
        let p = Point::from(corner);
        d.x * p.x + d.y * p.y + d.z * p.z
    }
}
