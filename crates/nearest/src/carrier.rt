// A simplex with what it carries: the point of the line, plane or space through its differences that is nearest to the origin.
ghost use Rattle.std.specs.Prelude.{◌≡◌};
ghost use Rattle.convex.specs.Simplices.{foot as foot_of, extent as extent_of};
ghost use Rattle.nearest.specs.Vectors.{to};
ghost use Rattle.nearest.specs.Simplices.{points};

use crate::simplex::Simplex;
use crate::vectors::Vector;

// It carries the point foot / extent. The two stand apart, and not as a Fraction, since each round multiplies by the foot as a vector.
#[derive(Clone, Copy)]
pub(crate) struct Carrier {
    pub(crate) simplex: Simplex,
    pub(crate) foot: Vector,
    pub(crate) extent: i64,
    ghost foot_is: { to foot ≡ foot_of (points simplex) },
    ghost extent_is: { extent ≡ extent_of (points simplex) },
}
