// Points, corners, directions, fractions and gaps for the tests, made from their numbers.
use exact::corner::Corner;
use exact::direction::Direction;
use exact::fraction::Fraction;
use exact::gap::Gap;
use exact::point::Point;
use std::test::Fail;

pub(crate) fn point(x: i64, y: i64, z: i64) -> Point {
    Point { x, y, z }
}

pub(crate) fn corner(x: i64, y: i64, z: i64) -> Result<Corner, Fail> {
    Ok(Corner::try_from(point(x, y, z))?)
}

pub(crate) fn along(x: i64, y: i64, z: i64) -> Result<Direction, Fail> {
    Ok(Direction::try_from(point(x, y, z))?)
}

pub(crate) fn over(x: i64, y: i64, z: i64, w: i64) -> Result<Fraction, Fail> {
    Ok(Fraction::new(point(x, y, z), w).ok_or("a fraction over a number below 1")?)
}

pub(crate) fn gap(p: u64, q: u64) -> Result<Gap, Fail> {
    Ok(Gap::new(p, q).ok_or("a gap out of bounds")?)
}
