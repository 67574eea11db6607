// The first-best search at products and at gaps: ties, one candidate, none.
use crate::made::{along, corner, gap};
use exact::scores::{Itself, farthest, narrowest};
use search::listed::first_best_of;
use std::test::Fail;

#[test]
fn the_first_among_equals_is_farthest(rt: HostRuntime) -> Result<(), Fail> {
    let corners = [
        corner(0, 0, 0)?,
        corner(3, 1, 0)?,
        corner(3, -1, 0)?,
        corner(-3, 0, 0)?,
    ];
    let found = farthest(&corners, along(1, 0, 0)?).ok_or("there are corners")?;
    assert_eq!(rt; found.candidate, 1);
    assert_eq!(rt; found.score.0, 3);
    let back = farthest(&corners, along(-2, 0, 0)?).ok_or("there are corners")?;
    assert_eq!(rt; back.candidate, 3);
    assert_eq!(rt; back.score.0, 6);
    let all = farthest(&corners, along(0, 0, 5)?).ok_or("there are corners")?;
    assert_eq!(rt; all.candidate, 0);
    Ok(())
}

#[test]
fn one_corner_and_none(rt: HostRuntime) -> Result<(), Fail> {
    let one = [corner(-5, -5, -5)?];
    let found = farthest(&one, along(1, 1, 1)?).ok_or("there is a corner")?;
    assert_eq!(rt; found.candidate, 0);
    assert_eq!(rt; found.score.0, -15);
    assert!(rt; farthest(&one[1..1], along(1, 1, 1)?).is_none());
    Ok(())
}

#[test]
fn the_first_of_the_narrowest_gaps(rt: HostRuntime) -> Result<(), Fail> {
    let gaps = [gap(1, 2)?, gap(4, 9)?, gap(1, 3)?, gap(2, 6)?];
    let found = narrowest(&gaps).ok_or("there are gaps")?;
    assert_eq!(rt; found.candidate, 2);
    assert_eq!(rt; found.score.q, 3);
    assert!(rt; narrowest(&gaps[0..0]).is_none());
    Ok(())
}

#[test]
fn the_narrower_gap_is_the_better_score(rt: HostRuntime) -> Result<(), Fail> {
    let gaps = [gap(4, 9)?, gap(1, 3)?, gap(1, 2)?];
    let found = first_best_of(&gaps, Itself).ok_or("there are gaps")?;
    assert_eq!(rt; found.candidate, 1);
    let some = [None, Some(gap(1, 2)?), Some(gap(1, 3)?), None];
    let best = first_best_of(&some, Itself).ok_or("there are places")?;
    assert_eq!(rt; best.candidate, 2);
    Ok(())
}
