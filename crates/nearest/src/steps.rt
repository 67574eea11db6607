// What the search does with a carrier: measure it, compare it, and let it grow by a pair.
ghost use Rattle.std.specs.Prelude.{◌≡◌, ◌≤◌, pos, ◌*ℤ◌, int_lt};
ghost use Rattle.std.specs.List.{ContainsAt as Has};
ghost use Rattle.integers.specs.Points.{dot as dotted};
ghost use Rattle.convex.specs.Fractions.{SquareOf};
ghost use Rattle.nearest.specs.Vectors.{to};
ghost use Rattle.nearest.specs.Pairs.{between};
ghost use Rattle.nearest.specs.Simplices.{points};
ghost use Rattle.nearest.specs.Shapes.{carried, Lesser, Grown};

use crate::carrier::Carrier;
use crate::pair::Pair;
use crate::simplex::{Edge, Simplex, Solid, Triangle};
use crate::span::Span;
use crate::vectors::Vector;
use exact::gap::Gap;

impl Simplex {
    // A corner of the simplex.
    fn corner(self) -> Vector
        ensures { Has (points self) (to result) }
    {
        match self {
            Simplex::One(a) => a.difference(),
            Simplex::Two(s) => s.a.difference(),
            Simplex::Three(s) => s.a.difference(),
            Simplex::Four(s) => s.a.difference(),
        }
    }
}

impl Carrier {
    // The square of the carried point: the product of the foot and any corner of the simplex, over the extent.
    pub(crate) fn gap(self) -> Gap
        ensures square { SquareOf (carried self) (pos result.p) self.extent }
        ensures over { pos result.q ≡ self.extent }
        ensures high { result.p ≤ 17348050944 }
    {
        // Neither number is negative, by the fields of the carrier: `u64::try_from` would test it once more.
        let square = self.foot.dot(self.simplex.corner());
        Gap {
            p: square as u64,
            q: self.extent as u64,
        }
    }

    // The shorter of two carried points, and this one where they are equally long.
    pub(crate) fn shorter(self, other: Carrier) -> Carrier
        ensures { Lesser self other result }
    {
        let mine = self.gap();
        let its = other.gap();
        if its.is_narrower(mine) { other } else { self }
    }

    // Whether the difference of w lies on the near side of the carried point.
    fn nearer(self, w: Pair) -> bool
        ensures { result ≡ int_lt (self.extent *ℤ dotted (to self.foot) (between w)) (dotted (to self.foot) (to self.foot)) }
    {
        self.extent * self.foot.dot(w.difference()) < self.foot.dot(self.foot)
    }

    // The nearest point of the simplex with one more pair, or nothing where the difference of the pair is not on the near side.
    pub(crate) fn grown(self, w: Pair) -> Option<Carrier>
        ensures { Grown self w result }
    {
        if !self.nearer(w) {
            return None;
        }
        Some(match self.simplex {
            Simplex::One(a) => Edge { a, b: w }.nearest(),
            Simplex::Two(s) => Triangle {
                a: s.a,
                b: s.b,
                c: w,
            }
            .nearest(),
            Simplex::Three(s) => Solid {
                a: s.a,
                b: s.b,
                c: s.c,
                d: w,
            }
            .nearest(),
            Simplex::Four(_) => unreachable!(),
        })
    }
}
