// The nearest point of a simplex: what its foot carries where all weights are positive, and else the best of its faces across a weight that is not.
ghost use Rattle.std.specs.Prelude.{◌≡◌, List};
ghost use Rattle.convex.specs.Simplices.{weights as weights_of, foot as foot_of, extent as extent_of};
ghost use Rattle.nearest.specs.declared.pair.Pair.{Pair};
ghost use Rattle.nearest.specs.Vectors.{to};
ghost use Rattle.nearest.specs.Pairs.{betweens};
ghost use Rattle.nearest.specs.Simplices.{pairs as pairs_of};
ghost use Rattle.nearest.specs.Shapes.{Carried, ByFaces, Chosen};

use crate::carrier::Carrier;
use crate::simplex::Simplex;
use crate::vectors::Vector;

// A simplex of N pairs. Its foot is the sum of the differences by the weights, and carries a point over the extent, their total.
pub(crate) trait Span<const N: usize>: Copy {
    // Its pairs.
    ghost pairs: { Self → List Pair };

    // The weights of the foot.
    fn weights(self) -> [i64; N]
        ensures { weights_of (betweens (pairs self)) ≡ result };

    // The sum of the differences by these weights.
    fn foot(self) -> Vector
        ensures { to result ≡ foot_of (betweens (pairs self)) };

    // The total of these weights.
    fn extent(self) -> i64
        ensures { result ≡ extent_of (betweens (pairs self)) };

    // The same as one of all simplices. As Into<Simplex> it would take four more impls, and a law here that each keeps the pairs.
    fn simplex(self) -> Simplex
        ensures { pairs_of result ≡ pairs self };

    // The best of the faces across a weight that is not positive, or nothing where all are positive. Each shape names its faces to or_face: one
    // loop over the weights zipped with the faces was proved, and each measurement took 7 to 22 percent longer.
    fn by_faces(self) -> Option<Carrier>
        ensures { ByFaces (pairs self) result };

    // What carries the nearest point. Inlined, as are the faces: a call would copy the carrier, which costs a tenth of the time.
    #[inline(always)]
    final fn nearest(self) -> Carrier
        ensures { Carried (pairs self) result }
    {
        if let Some(face) = self.by_faces() {
            return face;
        }
        Carrier {
            simplex: self.simplex(),
            foot: self.foot(),
            extent: self.extent(),
        }
    }
}

// Makes of the best so far the better of it and the nearest point of one more face, where the weight across from it is not positive.
#[inline(always)]
pub(crate) fn or_face<const N: usize, F: Span<N>>(best: &mut Option<Carrier>, weight: i64, face: F)
    ensures { Chosen weight (F.pairs face) best.old best.new }
{
    let positive = weight > 0;
    if positive {
        return;
    }
    let next = face.nearest();
    *best = Some(best.map_or(next, |found| found.shorter(next)));
}
