// Measurements at a touch and a step off it, of bodies with corners in a line or a plane, twice, alone, equal, or inside one another.
use exact::corner::Corner;
use exact::point::Point;
use nearest::corners::Corners;
use nearest::measure::measure;
use nearest::measurement::Measurement;
use std::process::Abort;
use std::test::Fail;

fn measured(first: &[Corner], second: &[Corner]) -> Result<Measurement, Fail> {
    let a = Corners::try_from(first)?;
    let b = Corners::try_from(second)?;
    Ok(measure(&a, &b)?)
}

// What a measurement is to say: the nearest difference d / w, and the squared gap p / q.
#[derive(Clone, Copy)]
struct Told {
    d: Point,
    w: i64,
    p: u64,
    q: u64,
}

// Whether the measurement of this case says so.
fn says(
    rt: &impl Abort,
    case: &str,
    first: &[Corner],
    second: &[Corner],
    told: Told,
) -> Result<(), Fail> {
    let m = measured(first, second)?;
    assert_eq!(rt; m.difference.point, told.d, "{case}");
    assert_eq!(rt; m.difference.over, told.w, "{case}");
    assert_eq!(rt; m.gap.p, told.p, "{case}");
    assert_eq!(rt; m.gap.q, told.q, "{case}");
    Ok(())
}

// d / w and p / q, as numbers.
macro_rules! told {
    ($x:expr, $y:expr, $z:expr; $w:expr; $p:expr, $q:expr) => {
        Told { d: Point { x: $x, y: $y, z: $z }, w: $w, p: $p, q: $q }
    };
}

// A corner, by its coordinates.
macro_rules! at {
    ($x:expr, $y:expr, $z:expr) => {
        Corner { x: $x, y: $y, z: $z }
    };
}

// The eight corners of a box from its low and its high corner.
macro_rules! cuboid {
    ($a:expr, $b:expr, $c:expr; $d:expr, $e:expr, $f:expr) => {
        [at!($a, $b, $c), at!($a, $b, $f), at!($a, $e, $c), at!($a, $e, $f), at!($d, $b, $c), at!($d, $b, $f), at!($d, $e, $c), at!($d, $e, $f)]
    };
}

#[test]
fn fractions_of_a_step(rt: HostRuntime) -> Result<(), Fail> {
    let origin = [at!(0, 0, 0)];
    says(
        &rt,
        "the gap of a half",
        &[at!(1, 0, 0), at!(0, 1, 0)],
        &origin,
        told!(1, 1, 0; 2; 1, 2),
    )?;
    says(
        &rt,
        "the gap of a third",
        &[at!(1, 0, 0), at!(0, 1, 0), at!(0, 0, 1)],
        &origin,
        told!(1, 1, 1; 3; 1, 3),
    )?;
    says(
        &rt,
        "the gap of four ninths",
        &[at!(2, 0, 0), at!(0, 1, 0), at!(0, 0, 1)],
        &origin,
        told!(2, 4, 4; 9; 4, 9),
    )?;
    let face = [at!(-12, -9, -5), at!(14, 6, 2), at!(-14, 12, 11)];
    says(
        &rt,
        "the face of a slanted solid",
        &face,
        &[at!(-3, 5, 4)],
        told!(-93, 430, -576; 525325; 1, 525325),
    )
}

#[test]
fn a_touch_and_a_step_off_it(rt: HostRuntime) -> Result<(), Fail> {
    let cube = cuboid!(-1, -1, -1; 1, 1, 1);
    says(
        &rt,
        "face on face",
        &cube,
        &cuboid!(1, -1, -1; 3, 1, 1),
        told!(0, 0, 0; 1; 0, 1),
    )?;
    says(
        &rt,
        "corner on corner",
        &cube,
        &cuboid!(1, 1, 1; 3, 3, 3),
        told!(0, 0, 0; 1; 0, 1),
    )?;
    says(
        &rt,
        "edge against edge",
        &cube,
        &cuboid!(2, 2, -1; 4, 4, 1),
        told!(-1, -1, 0; 1; 2, 1),
    )?;
    says(
        &rt,
        "corner before a corner",
        &cube,
        &[at!(2, 2, 2)],
        told!(-1, -1, -1; 1; 3, 1),
    )?;
    says(
        &rt,
        "face above face",
        &cube,
        &cuboid!(-14, -14, -14; 14, 14, -2),
        told!(0, 0, 1; 1; 1, 1),
    )
}

#[test]
fn inside_and_equal(rt: HostRuntime) -> Result<(), Fail> {
    let cube = cuboid!(-6, -6, -6; 6, 6, 6);
    says(
        &rt,
        "a cube and itself",
        &cube,
        &cube,
        told!(0, 0, 0; 1; 0, 1),
    )?;
    says(
        &rt,
        "a corner inside a cube",
        &cube,
        &[at!(1, 2, 3)],
        told!(0, 0, 0; 1; 0, 1),
    )?;
    says(
        &rt,
        "a cube around a corner",
        &[at!(0, 0, 0)],
        &cube,
        told!(0, 0, 0; 1; 0, 1),
    )?;
    says(
        &rt,
        "opposite ends of the table",
        &[at!(14, -14, 14)],
        &[at!(-14, 14, -14)],
        told!(28, -28, 28; 1; 2352, 1),
    )
}

#[test]
fn in_a_line_in_a_plane_and_twice(rt: HostRuntime) -> Result<(), Fail> {
    let line = [at!(0, 0, 0), at!(3, 0, 0), at!(1, 0, 0), at!(3, 0, 0)];
    says(
        &rt,
        "corners in a line",
        &line,
        &[at!(2, 5, 0), at!(2, 5, 0)],
        told!(0, -5, 0; 1; 25, 1),
    )?;
    let square = [at!(-1, -1, 0), at!(-1, 1, 0), at!(1, -1, 0), at!(1, 1, 0)];
    says(
        &rt,
        "above a square",
        &square,
        &[at!(0, 0, 3)],
        told!(0, 0, -3; 1; 9, 1),
    )?;
    says(
        &rt,
        "in the plane, inside",
        &square,
        &[at!(0, 0, 0)],
        told!(0, 0, 0; 1; 0, 1),
    )?;
    says(
        &rt,
        "in the plane, outside",
        &square,
        &[at!(3, 3, 0)],
        told!(-2, -2, 0; 1; 8, 1),
    )
}

#[test]
fn witnesses_come_first_and_zeros_after(rt: HostRuntime) -> Result<(), Fail> {
    let m = measured(&[at!(2, 0, 0), at!(0, 1, 0), at!(0, 0, 1)], &[at!(0, 0, 0)])?;
    let [a, b, c, d] = m.witnesses;
    assert!(rt; a.weight > 0 && b.weight > 0 && c.weight > 0);
    assert_eq!(rt; d.weight, 0);
    assert_eq!(rt; Point::from(d.first), Point { x: 0, y: 0, z: 0 });
    assert_eq!(rt; Point::from(d.second), Point { x: 0, y: 0, z: 0 });
    let one = measured(&[at!(3, 4, 0)], &[at!(0, 0, 0)])?;
    let [e, f, g, h] = one.witnesses;
    assert_eq!(rt; e.weight, 1);
    assert_eq!(rt; Point::from(e.first), Point { x: 3, y: 4, z: 0 });
    assert!(rt; f.weight == 0 && g.weight == 0 && h.weight == 0);
    Ok(())
}

#[test]
fn a_body_has_a_corner(rt: HostRuntime) -> Result<(), Fail> {
    let one = [at!(0, 0, 0)];
    assert!(rt; Corners::try_from(one.as_slice()).is_ok());
    assert!(rt; Corners::try_from(&one[0..0]).is_err());
    Ok(())
}
