// A corner of the first body and one of the second.
use crate::measurement::Witness;
use crate::vectors::Vector;
use exact::corner::Corner;

#[derive(Clone, Copy)]
pub(crate) struct Pair {
    pub(crate) first: Corner,
    pub(crate) second: Corner,
}

impl Pair {
    ghost use Rattle.std.specs.Prelude.{◌≡◌};
    ghost use Rattle.nearest.specs.Vectors.{to};
    ghost use Rattle.nearest.specs.Pairs.{between};
    ghost use Rattle.nearest.specs.Reports.{weighed as with_weight};

    // The difference of the two corners.
    pub(crate) fn difference(self) -> Vector
        ensures { to result ≡ between self }
    {
        Vector::from(self.first) - Vector::from(self.second)
    }

    // The pair as a witness of this weight.
    pub(crate) fn weighed(self, weight: i64) -> Witness
        ensures { result ≡ with_weight self weight }
    {
        Witness {
            first: self.first,
            second: self.second,
            weight,
        }
    }
}
