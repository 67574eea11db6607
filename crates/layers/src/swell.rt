// The swell layer: every corner of the book below is replaced by the eight corners of the box that reaches m from it on every side.
ghost use Rattle.std.specs.Prelude.{◌≡◌, pos, ◌-ℤ◌, int_lt, unsigned_abs};
ghost use Rattle.integers.specs.Points.{dot, ◌+ᵛ◌, ◌-ᵛ◌};
ghost use Rattle.exact.specs.Spots.{heading, spot};
ghost use Rattle.layers.specs.Layers.{cube, swelled};
ghost use Rattle.layers.specs.Swells.{Inside, Roomy, Cleared};
ghost use Rattle.layers.specs.Laws.{swelled-some, swelled-near};

use exact::corner::{Corner, PartCorner};
use exact::direction::Direction;
use exact::point::Point;
use parts::block::Block;
use parts::book::{Meaning, PartBook};
use parts::octant::Octant;
use refusals::Refusal;

// The book below, swelled by 0 to 255 steps on every side.
#[derive(Clone, Copy, Drop)]
pub struct Swell<B> {
    pub book: B,
    pub by: u8,
}

// The six directions along the axes.
const AXES: [Direction; 6] = [
    Direction {
        along: Point { x: 1, y: 0, z: 0 },
    },
    Direction {
        along: Point { x: -1, y: 0, z: 0 },
    },
    Direction {
        along: Point { x: 0, y: 1, z: 0 },
    },
    Direction {
        along: Point { x: 0, y: -1, z: 0 },
    },
    Direction {
        along: Point { x: 0, y: 0, z: 1 },
    },
    Direction {
        along: Point { x: 0, y: 0, z: -1 },
    },
];

// A corner moved by the same number of steps along each axis.
fn moved(c: PartCorner, by: i8) -> PartCorner
    requires { Roomy (unsigned_abs by) (spot c) }
    ensures { spot result ≡ spot c +ᵛ record { x = by; y = by; z = by } }
{
    PartCorner {
        x: c.x + by,
        y: c.y + by,
        z: c.z + by,
    }
}

// The box whose eight corners replace a corner.
fn widened(c: PartCorner, by: u8) -> Block
    requires { Roomy by (spot c) }
    ensures low { spot result.low ≡ spot c -ᵛ cube by }
    ensures high { spot result.high ≡ spot c +ᵛ cube by }
{
    // `by` is at most 5 where there is room.
    let by = by as i8;
    Block {
        low: moved(c, -by),
        high: moved(c, by),
    }
}

// Whether a corner that is moved along an axis by some steps lies beyond 5.
fn is_beyond(axis: Direction, c: PartCorner, by: u8) -> bool
    ensures { result ≡ int_lt (pos 5 -ℤ pos by) (dot (heading axis) (spot c)) }
{
    axis.product(Corner::from(c)) > 5 - i64::from(by)
}

impl<B: PartBook> Swell<B> {
    // Refuses a part that has no room along an axis: its farthest corner tells.
    fn check_room_along(&self, part: u16, axis: Direction) -> Result<(), Refusal>
        ensures { Cleared (Inside self.now.by (heading axis)) part (B.Meaning.meaning self.now.book part) result }
    {
        let c = self.book.farthest_along(part, axis)?;
        if is_beyond(axis, c, self.by) {
            return Err(Refusal::swelled_too_far(part));
        }
        Ok(())
    }

    // Refuses a part that has a corner without room on some side: with the part's own slip, or as swelled too far.
    fn check_room(&self, part: u16) -> Result<(), Refusal>
        ensures { Cleared (Roomy self.now.by) part (B.Meaning.meaning self.now.book part) result }
    {
        for axis in AXES {
            self.check_room_along(part, axis)?;
        }
        Ok(())
    }
}

impl<B: Meaning> Meaning for Swell<B> {
    ghost meaning = { λ s n. swelled s.by n (B.Meaning.meaning s.book n) };

    ghost some = { λ b n. swelled-some b.by n (B.Meaning.meaning b.book n) (B.Meaning.some b.book n) };

    ghost near = { λ b n. swelled-near b.by n (B.Meaning.meaning b.book n) };
}

impl<B: PartBook> PartBook for Swell<B> {
    fn farthest_along(&self, part: u16, direction: Direction) -> Result<PartCorner, Refusal> {
        self.check_room(part)?;
        let c = self.book.farthest_along(part, direction)?;
        Ok(widened(c, self.by).corner(Octant::towards(direction)))
    }

    fn corner(&self, part: u16, k: usize) -> Result<Option<PartCorner>, Refusal> {
        self.check_room(part)?;
        let octant = Octant::numbered(k);
        let below = self.book.corner(part, k / 8)?;
        Ok(below.map(|c| widened(c, self.by).corner(octant)))
    }
}
