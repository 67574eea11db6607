// Seeing corners and directions in a mirror and turning them: alike for both, since neither changes a length.
ghost use Rattle.std.specs.Prelude.{◌≡◌};
ghost use Rattle.integers.specs.Points.{Pt};
ghost use Rattle.exact.specs.Spots.{spot, heading};
ghost use Rattle.parts.specs.Moves.{flipped, quartered};

use exact::corner::PartCorner;
use exact::direction::Direction;
use exact::point::Point;

// What is mirrored and turned.
pub trait Movable: Copy {
    // The three numbers that are moved.
    ghost numbers: { Self → Pt };

    // Seen in the mirror x = 0.
    fn mirrored(self) -> Self
        ensures { numbers result ≡ flipped (numbers self) };

    // Turned by a quarter about the z axis, from x towards y.
    fn quarter_turned(self) -> Self
        ensures { numbers result ≡ quartered (numbers self) };
}

// The two impls are alike but for the width of their numbers: a corner is taken apart and made anew in bytes, a direction in 64 bits.
impl Movable for PartCorner {
    ghost numbers = { λ c. spot c };

    fn mirrored(self) -> PartCorner {
        PartCorner {
            x: -self.x,
            y: self.y,
            z: self.z,
        }
    }

    fn quarter_turned(self) -> PartCorner {
        PartCorner {
            x: -self.y,
            y: self.x,
            z: self.z,
        }
    }
}

impl Movable for Direction {
    ghost numbers = { λ d. heading d };

    fn mirrored(self) -> Direction {
        let Point { x, y, z } = self.along;
        Direction {
            along: Point { x: -x, y, z },
        }
    }

    fn quarter_turned(self) -> Direction {
        let Point { x, y, z } = self.along;
        Direction {
            along: Point { x: -y, y: x, z },
        }
    }
}
