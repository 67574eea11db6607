// Lowest terms: the greatest common divisor, and fractions and gaps with it divided out.
ghost use Rattle.std.specs.Prelude.{◌≡◌, ◌^◌, ◌<◌, List, [], ◌∷◌, map, pos, ◌*ℤ◌, unsigned_abs};
ghost use Rattle.integers.specs.Divisors.{Divides, Greatest, Reduced};
ghost use Rattle.exact.specs.Terms.{terms, parts};

use crate::fraction::Fraction;
use crate::gap::Gap;
use crate::point::Point;

// The greatest common divisor, by Euclid's algorithm; of 0 and 0 it is 0.
pub fn gcd(a: u64, b: u64) -> u64
    ensures { Greatest (a ∷ b ∷ []) result }
{
    let (mut x, mut y) = (a, b);
    while y != 0 {
        (x, y) = (y, x % y);
    }
    x
}

// x by one of its divisors.
fn divided(x: i64, by: u64) -> i64
    requires { (0 < by) × ((by < 2 ^ 63) × (Divides by (unsigned_abs x))) }
    ensures { x ≡ pos by *ℤ result }
{
    // `by` is below 2 ^ 63 by the clause: `i64::try_from` would test it once more.
    x / by as i64
}

impl Fraction {
    // The greatest number that divides all four.
    fn divisor(self) -> u64
        ensures greatest { Greatest (map unsigned_abs (terms self)) result }
        ensures low_bound { 0 < result }
        ensures high_bound { result < 2 ^ 63 }
    {
        let a = gcd(self.point.z.unsigned_abs(), self.over.unsigned_abs());
        let b = gcd(self.point.y.unsigned_abs(), a);
        gcd(self.point.x.unsigned_abs(), b)
    }

    // The same fraction in lowest terms: no number above 1 divides all four.
    pub fn lowest(self) -> Fraction
        ensures { Reduced (terms self) (terms result) }
    {
        let g = self.divisor();
        let x = divided(self.point.x, g);
        let y = divided(self.point.y, g);
        let z = divided(self.point.z, g);
        let over = divided(self.over, g);
        Fraction {
            point: Point { x, y, z },
            over,
        }
    }
}

impl Gap {
    // The same gap in lowest terms. One function with that of fractions would have to take two numbers for four and unsigned ones for signed:
    // only `gcd` is common to both.
    pub fn lowest(self) -> Gap
        ensures { Reduced (parts self) (parts result) }
    {
        let g = gcd(self.p, self.q);
        Gap {
            p: self.p / g,
            q: self.q / g,
        }
    }
}
