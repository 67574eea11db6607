// A point over a positive whole number: it stands for the point with each coordinate divided by that number.
ghost use Rattle.std.specs.Prelude.{pos, ◌<ℤ◌};

use crate::point::Point;

#[derive(Clone, Copy)]
pub struct Fraction {
    pub point: Point,
    pub over: i64,
    ghost positive: { pos 0 <ℤ over },
}
