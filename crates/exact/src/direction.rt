// A direction along which corners are compared: each number is within ±2,000,000,000, so that its product with a corner fits 64 bits.
ghost use Rattle.integers.specs.Points.{Pt};
ghost use Rattle.exact.specs.Space.{Within};

use crate::point::Point;

// It is no `Spot`: its numbers have 64 bits, and numbers beyond its reach are refused by a slip of the product, not by an error of this crate.
#[derive(Clone, Copy)]
pub struct Direction {
    pub along: Point,
    ghost near: { Within 2000000000 along },
}
