// Fractions and gaps made from their numbers, and the order of gaps.
ghost use Rattle.std.specs.Prelude.{◌≡◌, refl};
ghost use Rattle.std.specs.Ordering.{as_partial_cmp, eq_by_cmp, flip_args};
ghost use Rattle.std.specs.Cmp.{po, back_total, partial_equiv_from_equiv, eq_by_cmp_equiv};
ghost use Rattle.exact.specs.Terms.{crossed, narrower, OverPositive, InBounds};
ghost use Rattle.exact.specs.Crossed.{crossed_total, crossed_ties};

use crate::fraction::Fraction;
use crate::gap::Gap;
use crate::point::Point;
use std::cmp::Ordering;

// Neither maker below is a conversion: each takes two numbers, and answers nothing where one is out of bounds.
impl Fraction {
    // The point over a number, or nothing where the number is below 1.
    pub fn new(point: Point, over: i64) -> Option<Fraction>
        ensures { OverPositive point over result }
    {
        if over < 1 {
            return None;
        }
        Some(Fraction { point, over })
    }
}

impl Gap {
    // The gap p / q, or nothing where p is above 18,000,000,000 or q is not 1 to 120,000,000: no measurement reports such a gap.
    pub fn new(p: u64, q: u64) -> Option<Gap>
        ensures { InBounds p q result }
    {
        if p > 18000000000 || q < 1 || q > 120000000 {
            return None;
        }
        Some(Gap { p, q })
    }

    // Whether this gap is narrower than another, as fractions: by cross products.
    pub fn is_narrower(self, other: Gap) -> bool
        ensures { result ≡ narrower self other }
    {
        other < self
    }
}

// Gaps are compared as fractions, by cross products: 1/2 and 2/4 are equal. A gap is its own score, of which the greater is the better, and
// of two gaps the narrower is the better: so it is the greater.
impl Ord for Gap {
    ghost cmp = { flip_args crossed };

    ghost total = { back_total crossed_total };

    ghost matches_partial_cmp = { λ x y. refl };

    ghost matches_eq = { crossed_ties };

    fn cmp(&self, other: &Gap) -> Ordering {
        (other.p * self.q).cmp(&(self.p * other.q))
    }
}

impl PartialOrd for Gap {
    ghost partial_cmp = { as_partial_cmp (flip_args crossed) };

    ghost laws = { po (back_total crossed_total) crossed_ties };

    fn partial_cmp(&self, other: &Gap) -> Option<Ordering> {
        Some(self.cmp(other))
    }
}

impl PartialEq for Gap {
    ghost eq = { eq_by_cmp crossed };

    ghost laws = { partial_equiv_from_equiv (eq_by_cmp_equiv crossed_total) };

    fn eq(&self, other: &Gap) -> bool {
        self.cmp(other).is_eq()
    }
}

impl Eq for Gap {
    ghost laws = { eq_by_cmp_equiv crossed_total };
}
