// The search for the nearest difference: from one pair of corners, round by round, each time with the pair that lies farthest on the near side.
ghost use Rattle.integers.specs.Space.{Near};
ghost use Rattle.nearest.specs.Vectors.{to};
ghost use Rattle.nearest.specs.Bodies.{OfBoth};
ghost use Rattle.nearest.specs.Searches.{Probed, Ended};

use crate::body::Body;
use crate::carrier::Carrier;
use crate::pair::Pair;
use crate::span::Span;
use crate::vectors::Vector;
use exact::direction::Direction;
use exact::point::Point;
use refusals::Refusal;

// The two bodies between which the nearest difference is sought.
#[derive_where(Clone, Copy)]
pub(crate) struct Bodies<'a, F, G> {
    pub(crate) first: &'a F,
    pub(crate) second: &'a G,
}

impl<F: Body, G: Body> Bodies<'_, F, G> {
    // The pair whose difference lies farthest against d.
    fn probe(&self, d: Vector) -> Result<Pair, Refusal>
        requires { Near 1000000000 (to d) }
        ensures { OfBoth (Probed (to d)) (F.Body.corners self.now.first.now) (G.Body.corners self.now.second.now) result }
    {
        let back = Direction {
            along: Point::from(-d),
        };
        let onward = Direction {
            along: Point::from(d),
        };
        Ok(Pair {
            first: self.first.farthest(back)?,
            second: self.second.farthest(onward)?,
        })
    }

    // The simplex that carries the nearest difference.
    pub(crate) fn nearest(&self) -> Result<Carrier, Refusal>
        ensures { OfBoth Ended (F.Body.corners self.now.first.now) (G.Body.corners self.now.second.now) result }
    {
        let from = self.probe(Vector { x: -1, y: 0, z: 0 })?;
        let mut near = from.nearest();
        while near.foot != Vector::ZERO {
            let w = self.probe(near.foot)?;
            let Some(next) = near.grown(w) else {
                return Ok(near);
            };
            near = next;
        }
        Ok(near)
    }
}
