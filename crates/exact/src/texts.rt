// How points, fractions, gaps and errors are printed.
ghost use Rattle.std.specs.Prelude.{Some};
ghost use Rattle.exact.specs.Texts.{point_text, fraction_text, gap_text, too_far_text};

use crate::fraction::Fraction;
use crate::gap::Gap;
use crate::point::Point;
use crate::too_far::TooFar;
use std::error::Error;
use std::fmt;

// A point as (x, y, z).
impl fmt::Display for Point {
    ghost output = { λ p. Some (point_text p) };

    fn fmt<W: fmt::Write>(&self, f: &mut fmt::Formatter<W>) -> fmt::Result {
        write!(f, "({}, {}, {})", self.x, self.y, self.z)
    }
}

// A fraction as (x, y, z)/w.
impl fmt::Display for Fraction {
    ghost output = { λ x. Some (fraction_text x) };

    fn fmt<W: fmt::Write>(&self, f: &mut fmt::Formatter<W>) -> fmt::Result {
        write!(f, "{}/{}", self.point, self.over)
    }
}

// A gap as p/q.
impl fmt::Display for Gap {
    ghost output = { λ g. Some (gap_text g) };

    fn fmt<W: fmt::Write>(&self, f: &mut fmt::Formatter<W>) -> fmt::Result {
        write!(f, "{}/{}", self.p, self.q)
    }
}

// The error of a corner out of reach.
impl fmt::Display for TooFar {
    ghost output = { λ e. Some (too_far_text e) };

    fn fmt<W: fmt::Write>(&self, f: &mut fmt::Formatter<W>) -> fmt::Result {
        write!(f, "a corner lies beyond {} steps", self.reach)
    }
}

impl Error for TooFar {}
