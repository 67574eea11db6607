// Vectors of ℤ³ in 64 bits: each operation says within which bounds it may be used.
ghost use Rattle.std.specs.Prelude.{◌≡◌, ◌^◌};
ghost use Rattle.integers.specs.Points.{◌+ᵛ◌, ◌-ᵛ◌, ◌·ᵛ◌, dot as dotted, cross as crossed, origin};
ghost use Rattle.integers.specs.Space.{Near};
ghost use Rattle.exact.specs.Space.{at};
ghost use Rattle.exact.specs.Spots.{spot};
ghost use Rattle.nearest.specs.Room.{Room, Scale};
ghost use Rattle.nearest.specs.Vectors.{to};

use exact::corner::Corner;
use exact::point::Point;
use std::ops::{Add, Mul, Neg, Sub};

// The way from the origin to a point. It stands beside exact's Point since its operators require bounds, and a public call of this project
// requires nothing.
#[derive(Clone, Copy, PartialEq, Eq)]
pub(crate) struct Vector {
    pub(crate) x: i64,
    pub(crate) y: i64,
    pub(crate) z: i64,
}

impl Vector {
    // From the origin to itself.
    pub(crate) const ZERO: Vector = Vector { x: 0, y: 0, z: 0 };

    // The three products of like coordinates, added.
    pub(crate) fn dot(self, other: Vector) -> i64
        requires { Room (to self) (to other) }
        ensures { result ≡ dotted (to self) (to other) }
    {
        self.x * other.x + self.y * other.y + self.z * other.z
    }

    // The cross product, which stands on both.
    pub(crate) fn cross(self, other: Vector) -> Vector
        requires { Room (to self) (to other) }
        ensures { to result ≡ crossed (to self) (to other) }
    {
        Vector {
            x: self.y * other.z - self.z * other.y,
            y: self.z * other.x - self.x * other.z,
            z: self.x * other.y - self.y * other.x,
        }
    }
}

// The way from the origin to a corner.
impl From<Corner> for Vector {
    ghost from_gives = { λ c v. to v ≡ spot c };

    fn from(c: Corner) -> Vector {
        Vector {
            x: i64::from(c.x),
            y: i64::from(c.y),
            z: i64::from(c.z),
        }
    }
}

// The point to which a vector leads from the origin.
impl From<Vector> for Point {
    ghost from_gives = { λ v p. at p ≡ to v };

    fn from(v: Vector) -> Point {
        Point {
            x: v.x,
            y: v.y,
            z: v.z,
        }
    }
}

impl Add for Vector {
    type Output = Vector;

    ghost can_add = { λ a b. Near (2 ^ 60) (to a) × Near (2 ^ 60) (to b) };

    ghost add_gives = { λ a b r. to r ≡ to a +ᵛ to b };

    fn add(self, rhs: Vector) -> Vector {
        Vector {
            x: self.x + rhs.x,
            y: self.y + rhs.y,
            z: self.z + rhs.z,
        }
    }
}

impl Sub for Vector {
    type Output = Vector;

    ghost can_sub = { λ a b. Near (2 ^ 60) (to a) × Near (2 ^ 60) (to b) };

    ghost sub_gives = { λ a b r. to r ≡ to a -ᵛ to b };

    fn sub(self, rhs: Vector) -> Vector {
        Vector {
            x: self.x - rhs.x,
            y: self.y - rhs.y,
            z: self.z - rhs.z,
        }
    }
}

impl Neg for Vector {
    type Output = Vector;

    ghost can_neg = { λ a. Near (2 ^ 60) (to a) };

    ghost neg_gives = { λ a r. to r ≡ origin -ᵛ to a };

    fn neg(self) -> Vector {
        Vector {
            x: -self.x,
            y: -self.y,
            z: -self.z,
        }
    }
}

impl Mul<Vector> for i64 {
    type Output = Vector;

    ghost can_mul = { λ k a. Scale k (to a) };

    ghost mul_gives = { λ k a r. to r ≡ k ·ᵛ to a };

    fn mul(self, rhs: Vector) -> Vector {
        Vector {
            x: self * rhs.x,
            y: self * rhs.y,
            z: self * rhs.z,
        }
    }
}
