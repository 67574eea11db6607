// The program: one piece of work on a tray, printed as a person would want to read it.
#![tactic(auto)]

mod shapes;

use crate::shapes::{CASE_WITH_FEET, SLANTED_LID};
use anyhow::Context;
use exact::corner::Corner;
use exact::direction::Direction;
use exact::fraction::Fraction;
use exact::point::Point;
use exact::scores::farthest;
use nearest::corners::Corners;
use nearest::measure::measure;
use nearest::measurement::Measurement;
use worked::worked_measurements;

// Prints the corner of a body that lies farthest along a direction, with its product.
fn print_farthest(rt: &impl Print, corners: &[Corner], along: Point) -> anyhow::Result<()> {
    let Ok(direction) = Direction::try_from(along) else {
        println!(rt; "  along {along}: beyond 2,000,000,000")?;
        return Ok(());
    };
    if let Some(found) = farthest(corners, direction) {
        let place = found.candidate;
        let product = found.score.0;
        if let Some(corner) = corners.get(place) {
            let at = Point::from(*corner);
            println!(rt; "  along {along}: corner {place} at {at}, product {product}")?;
        }
    }
    Ok(())
}

// The numbers of a measurement and its witnesses; places after these have weight 0.
fn print_measurement(rt: &impl Print, found: &Measurement) -> anyhow::Result<()> {
    let Measurement {
        difference,
        gap,
        ..
    } = *found;
    println!(rt; "  nearest difference D / W = {difference}, squared gap p / q = {gap}")?;
    for witness in found.witnesses.iter().filter(|w| w.weight != 0) {
        let a = Point::from(witness.first);
        let b = Point::from(witness.second);
        let weight = witness.weight;
        println!(rt; "  witness: {a} of the first and {b} of the second, weight {weight}")?;
    }
    Ok(())
}

// a less b, where that fits.
fn minus(a: Point, b: Point) -> Option<Point> {
    Some(Point {
        x: a.x.checked_sub(b.x)?,
        y: a.y.checked_sub(b.y)?,
        z: a.z.checked_sub(b.z)?,
    })
}

// The product of two points, where it fits.
fn dot(a: Point, b: Point) -> Option<i64> {
    let x = a.x.checked_mul(b.x)?;
    let y = a.y.checked_mul(b.y)?;
    let z = a.z.checked_mul(b.z)?;
    x.checked_add(y)?.checked_add(z)
}

// W times the product of D and a − b, where that fits.
fn reach(found: &Measurement, a: Corner, b: Corner) -> Option<i64> {
    let Fraction { point: d, over: w } = found.difference;
    dot(d, minus(Point::from(a), Point::from(b))?)?.checked_mul(w)
}

// The least of W D · (a − b) over the corners b of the second body: nothing where one does not fit.
fn least(found: &Measurement, a: Corner, second: &[Corner]) -> Option<i64> {
    second.iter().map(|b| reach(found, a, *b)).min()?
}

// Why nothing is nearer: for each corner of the first body, the least product with D over all corners of the second is no less than the square of D.
fn print_stopping_test(
    rt: &impl Print,
    found: &Measurement,
    first: &[Corner],
    second: &[Corner],
) -> anyhow::Result<()> {
    let d = found.difference.point;
    let limit = dot(d, d).context("the square of D does not fit")?;
    println!(rt;
        "  no corners are nearer: W D·(a − b) is at least D·D = {limit} for each corner a of the first and b of the second"
    )?;
    for a in first {
        let value = least(found, *a, second).context("a product does not fit")?;
        let at = Point::from(*a);
        let verdict = if value >= limit {
            "no nearer"
        } else {
            "NEARER"
        };
        println!(rt; "    a = {at}: least {value}, {verdict}")?;
    }
    Ok(())
}

// Measures one list of corners against another, and prints the whole answer.
fn print_gap(rt: &impl Print, first: &[Corner], second: &[Corner]) -> anyhow::Result<()> {
    let a = Corners::try_from(first)?;
    let b = Corners::try_from(second)?;
    match measure(&a, &b) {
        Ok(found) => {
            print_measurement(rt, &found)?;
            print_stopping_test(rt, &found, first, second)
        }
        Err(slip) => {
            println!(rt; "  {slip}")?;
            Ok(())
        }
    }
}

// Along the axes and aslant, up to the limit of a direction and beyond it.
const DIRECTIONS: [Point; 6] = [
    Point { x: 1, y: 0, z: 0 },
    Point { x: 0, y: -1, z: 0 },
    Point { x: -1, y: 2, z: 5 },
    Point { x: 3, y: 0, z: -10 },
    Point {
        x: 2000000000,
        y: -2000000000,
        z: 2000000000,
    },
    Point {
        x: 2000000001,
        y: 0,
        z: 0,
    },
];

// The whole piece of work.
fn run(rt: &impl Print) -> anyhow::Result<()> {
    println!(rt; "The slanted lid's farthest corner along each direction:")?;
    for along in DIRECTIONS {
        print_farthest(rt, &SLANTED_LID, along)?;
    }
    println!(rt; "The slanted lid against a case with side feet:")?;
    print_gap(rt, &SLANTED_LID, &CASE_WITH_FEET)?;
    let rows = worked_measurements();
    println!(rt; "Worked measurements that are proved of whatever measures them: {rows}")?;
    Ok(())
}

fn main(rt: HostRuntime) -> anyhow::Result<()> {
    run(&rt)
}
