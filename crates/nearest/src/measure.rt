// The measurement: the nearest difference of two bodies and the square of its length, in lowest terms, with its witnesses.
ghost use Rattle.std.specs.Prelude.{◌≡◌};
ghost use Rattle.convex.specs.Simplices.{weights as weights_of};
ghost use Rattle.nearest.specs.Simplices.{pairs, points};
ghost use Rattle.nearest.specs.Measurements.{blank as blank_of, Measured};
ghost use Rattle.nearest.specs.Reports.{listed, padded, Told};

use crate::body::Body;
use crate::carrier::Carrier;
use crate::measurement::{Measurement, Witness};
use crate::rounds::Bodies;
use crate::simplex::Simplex;
use crate::span::Span;
use exact::corner::Corner;
use exact::fraction::Fraction;
use exact::point::Point;
use refusals::Refusal;

// No witness: both corners at the origin, and the weight 0. It is no constant, since the contract of a function can say that it is the blank of the specs.
fn blank() -> Witness
    ensures { result ≡ blank_of }
{
    Witness {
        first: Corner { x: 0, y: 0, z: 0 },
        second: Corner { x: 0, y: 0, z: 0 },
        weight: 0,
    }
}

// The pairs of a simplex with their weights, and blank ones after them.
fn witnesses(s: Simplex) -> [Witness; 4]
    ensures { result ≡ padded (listed (pairs s) (weights_of (points s))) }
{
    let none = blank();
    match s {
        Simplex::One(a) => [a.weighed(1), none, none, none],
        Simplex::Two(s) => {
            let [k, l]: [i64; 2] = s.weights();
            [s.a.weighed(k), s.b.weighed(l), none, none]
        }
        Simplex::Three(s) => {
            let [k, l, m]: [i64; 3] = s.weights();
            [s.a.weighed(k), s.b.weighed(l), s.c.weighed(m), none]
        }
        Simplex::Four(s) => {
            let [k, l, m, n]: [i64; 4] = s.weights();
            [
                s.a.weighed(k),
                s.b.weighed(l),
                s.c.weighed(m),
                s.d.weighed(n),
            ]
        }
    }
}

// What is reported of the simplex at which the search ended.
fn report(found: Carrier) -> Measurement
    ensures { Told found result }
{
    let gap = found.gap().lowest();
    let fraction = Fraction {
        point: Point::from(found.foot),
        over: found.extent,
    };
    let difference = fraction.lowest();
    Measurement {
        difference,
        gap,
        witnesses: witnesses(found.simplex),
    }
}

// The nearest difference of two bodies, or the slip of one that refuses.
pub fn measure<F: Body, G: Body>(first: &F, second: &G) -> Result<Measurement, Refusal>
    ensures { Measured (F.Body.corners first.now) (G.Body.corners second.now) result }
{
    let found = Bodies { first, second }.nearest()?;
    Ok(report(found))
}
