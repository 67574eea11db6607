// Products, squares, lowest terms and the order of gaps, on examples and at the ends of their ranges.
use crate::made::{along, corner, gap, over, point};
use exact::corner::Corner;
use exact::direction::Direction;
use exact::fraction::Fraction;
use exact::gap::Gap;
use exact::lowest::gcd;
use exact::point::Point;
use std::test::Fail;

#[test]
fn corners_reach_fourteen_steps(rt: HostRuntime) -> Result<(), Fail> {
    assert_eq!(rt; Point::from(corner(14, -14, 0)?), point(14, -14, 0));
    assert!(rt; Corner::try_from(point(15, 0, 0)).is_err());
    assert!(rt; Corner::try_from(point(0, -15, 0)).is_err());
    assert!(rt; Corner::try_from(point(0, 0, i64::MIN)).is_err());
    Ok(())
}

#[test]
fn products_and_squares(rt: HostRuntime) -> Result<(), Fail> {
    let c = corner(14, -14, 14)?;
    let far = along(2000000000, -2000000000, 2000000000)?;
    assert_eq!(rt; far.product(c), 84000000000);
    assert_eq!(rt; c.square(), 588);
    let still = along(0, 0, 0)?;
    assert_eq!(rt; still.product(c), 0);
    let d = along(1, 2, -3)?;
    assert_eq!(rt; d.product(corner(5, -4, 3)?), -12);
    assert!(rt; Direction::try_from(point(2000000001, 0, 0)).is_err());
    assert!(rt; Direction::try_from(point(0, 0, i64::MAX)).is_err());
    Ok(())
}

#[test]
fn greatest_common_divisors(rt: HostRuntime) {
    assert_eq!(rt; gcd(12, 18), 6);
    assert_eq!(rt; gcd(0, 7), 7);
    assert_eq!(rt; gcd(7, 0), 7);
    assert_eq!(rt; gcd(0, 0), 0);
    assert_eq!(rt; gcd(u64::MAX, u64::MAX - 1), 1);
}

#[test]
fn fractions_in_lowest_terms(rt: HostRuntime) -> Result<(), Fail> {
    let x = over(4, -8, 12, 6)?.lowest();
    assert_eq!(rt; x.point, point(2, -4, 6));
    assert_eq!(rt; x.over, 3);
    let nothing = over(0, 0, 0, 7)?.lowest();
    assert_eq!(rt; nothing.over, 1);
    let least = over(i64::MIN, 0, 0, 2)?.lowest();
    assert_eq!(rt; least.point.x, i64::MIN / 2);
    assert_eq!(rt; least.over, 1);
    assert!(rt; Fraction::new(point(1, 1, 1), 0).is_none());
    assert!(rt; Fraction::new(point(1, 1, 1), i64::MIN).is_none());
    Ok(())
}

#[test]
fn gaps_as_fractions(rt: HostRuntime) -> Result<(), Fail> {
    let third = gap(1, 3)?;
    let four_ninths = gap(4, 9)?;
    assert!(rt;
        third.is_narrower(four_ninths),
        "1/3 is below 4/9, though both have the whole part 0"
    );
    assert!(rt; !four_ninths.is_narrower(third));
    let half = gap(1, 2)?;
    let two_quarters = gap(2, 4)?;
    assert!(rt;
        !half.is_narrower(two_quarters) && !two_quarters.is_narrower(half),
        "equal fractions tie"
    );
    let widest = gap(18000000000, 1)?;
    let least = gap(1, 120000000)?;
    assert!(rt; least.is_narrower(widest) && !widest.is_narrower(least));
    let reduced = gap(36, 81)?.lowest();
    assert_eq!(rt; reduced.p, 4);
    assert_eq!(rt; reduced.q, 9);
    Ok(())
}

#[test]
fn gaps_beyond_the_bounds(rt: HostRuntime) -> Result<(), Fail> {
    assert!(rt; Gap::new(1, 0).is_none());
    assert!(rt; Gap::new(18000000001, 1).is_none());
    assert!(rt; Gap::new(0, 120000001).is_none());
    let meeting = gap(0, 5)?.lowest();
    assert_eq!(rt; meeting.p, 0);
    assert_eq!(rt; meeting.q, 1);
    Ok(())
}
