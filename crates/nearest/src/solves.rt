// The point of the line, plane or space through one to four corner differences that is nearest to the origin: its weights, foot and extent.
// The extents, and the foot of a triangle and of a solid, are closed forms of the sums by the weights: as a sum the foot of a triangle would
// have a bound three times as large, within which its square does not fit 64 bits.
ghost use Rattle.std.specs.Prelude.{◌≡◌, ◌≤◌, [], ◌∷◌, unsigned_abs};
ghost use Rattle.integers.specs.Points.{det};
ghost use Rattle.convex.specs.Simplices.{normal as normal_of, volume as volume_of};
ghost use Rattle.nearest.specs.Vectors.{to};
ghost use Rattle.nearest.specs.Pairs.{between};

use crate::carrier::Carrier;
use crate::pair::Pair;
use crate::simplex::{Edge, Simplex, Solid, Triangle};
use crate::span::{Span, or_face};
use crate::vectors::Vector;

// The normal of a triangle: twice its area long.
fn normal(a: Pair, b: Pair, c: Pair) -> Vector
    ensures { to result ≡ normal_of (between a) (between b) (between c) }
{
    let p = a.difference();
    let q = b.difference();
    let r = c.difference();
    p.cross(q) + q.cross(r) + r.cross(p)
}

// Six times the volume of the solid that three differences span with the origin, with a sign.
fn determinant(a: Pair, b: Pair, c: Pair) -> i64
    ensures { result ≡ det (between a) (between b) (between c) }
{
    let p = a.difference();
    let q = b.difference();
    let r = c.difference();
    p.dot(q.cross(r))
}

// Six times the volume of a solid, with a sign; zero where the four lie in one plane.
fn volume(a: Pair, b: Pair, c: Pair, d: Pair) -> i64
    ensures value { result ≡ volume_of (between a) (between b) (between c) (between d) }
    ensures size { unsigned_abs result ≤ 526848 }
{
    normal(a, b, c).dot(d.difference()) - determinant(a, b, c)
}

// The foot of a single pair is its difference.
impl Span<1> for Pair {
    ghost pairs = { λ a. a ∷ [] };

    fn weights(self) -> [i64; 1] {
        [1]
    }

    fn foot(self) -> Vector {
        self.difference()
    }

    fn extent(self) -> i64 {
        1
    }

    fn simplex(self) -> Simplex {
        Simplex::One(self)
    }

    #[inline(always)]
    fn by_faces(self) -> Option<Carrier> {
        None
    }
}

// The foot on a line.
impl Span<2> for Edge {
    ghost pairs = { λ s. s.a ∷ s.b ∷ [] };

    fn weights(self) -> [i64; 2] {
        let p = self.a.difference();
        let q = self.b.difference();
        let e = q - p;
        [q.dot(e), -p.dot(e)]
    }

    fn foot(self) -> Vector {
        let p = self.a.difference();
        let q = self.b.difference();
        let e = q - p;
        q.dot(e) * p - p.dot(e) * q
    }

    // The square of the edge.
    fn extent(self) -> i64 {
        let e = self.b.difference() - self.a.difference();
        e.dot(e)
    }

    fn simplex(self) -> Simplex {
        Simplex::Two(self)
    }

    // Its ends.
    #[inline(always)]
    fn by_faces(self) -> Option<Carrier> {
        let Edge { a, b } = self;
        let [k, l]: [i64; 2] = self.weights();
        let mut best = None;
        or_face(&mut best, k, b);
        or_face(&mut best, l, a);
        best
    }
}

// The foot on a plane.
impl Span<3> for Triangle {
    ghost pairs = { λ s. s.a ∷ s.b ∷ s.c ∷ [] };

    fn weights(self) -> [i64; 3] {
        let n = normal(self.a, self.b, self.c);
        let p = self.a.difference();
        let q = self.b.difference();
        let r = self.c.difference();
        [n.dot(q.cross(r)), n.dot(r.cross(p)), n.dot(p.cross(q))]
    }

    fn foot(self) -> Vector {
        determinant(self.a, self.b, self.c) * normal(self.a, self.b, self.c)
    }

    // The square of the normal.
    fn extent(self) -> i64 {
        let n = normal(self.a, self.b, self.c);
        n.dot(n)
    }

    fn simplex(self) -> Simplex {
        Simplex::Three(self)
    }

    #[inline(always)]
    fn by_faces(self) -> Option<Carrier> {
        let Triangle { a, b, c } = self;
        let [k, l, m]: [i64; 3] = self.weights();
        let mut best = None;
        or_face(&mut best, k, Edge { a: b, b: c });
        or_face(&mut best, l, Edge { a, b: c });
        or_face(&mut best, m, Edge { a, b });
        best
    }
}

// The foot in the whole space is the origin.
impl Span<4> for Solid {
    ghost pairs = { λ s. s.a ∷ s.b ∷ s.c ∷ s.d ∷ [] };

    fn weights(self) -> [i64; 4] {
        let Solid { a, b, c, d } = self;
        let k = determinant(b, c, d);
        let l = determinant(a, c, d);
        let m = determinant(a, b, d);
        let n = determinant(a, b, c);
        let v = k - l + m - n;
        if v < 0 {
            [-k, l, -m, n]
        } else {
            [k, -l, m, -n]
        }
    }

    fn foot(self) -> Vector {
        Vector::ZERO
    }

    // The size of the volume.
    fn extent(self) -> i64 {
        volume(self.a, self.b, self.c, self.d).abs()
    }

    fn simplex(self) -> Simplex {
        Simplex::Four(self)
    }

    #[inline(always)]
    fn by_faces(self) -> Option<Carrier> {
        let Solid { a, b, c, d } = self;
        let [k, l, m, n]: [i64; 4] = self.weights();
        let mut best = None;
        or_face(&mut best, k, Triangle { a: b, b: c, c: d });
        or_face(&mut best, l, Triangle { a, b: c, c: d });
        or_face(&mut best, m, Triangle { a, b, c: d });
        or_face(&mut best, n, Triangle { a, b, c });
        best
    }
}
