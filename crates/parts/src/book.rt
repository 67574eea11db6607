// The part book: the interface between where corners come from and everything that measures them.
ghost use Rattle.std.specs.Prelude.{◌≡◌, ℕ, ◌<◌, List, length, IfOk};
ghost use Rattle.std.specs.List.{AllByRecursion};
ghost use Rattle.integers.specs.Space.{Near};
ghost use Rattle.convex.specs.Hulls.{Found};
ghost use Rattle.exact.specs.Space.{at};
ghost use Rattle.exact.specs.Spots.{heading, spot};
ghost use Rattle.parts.specs.Books.{Part, Sought, corner_of, told};

use exact::corner::PartCorner;
use exact::direction::Direction;
use exact::point::Point;
use refusals::Refusal;

// What a book says of each part number from 0 to 65535.
pub trait Meaning {
    // The corners of the part, or the slip by which every question for it is refused.
    ghost meaning: { Self → ℕ → Part };

    // A part that is not refused has a corner,
    ghost some: { (b : Self) (n : ℕ) → IfOk (meaning b n) (λ ps. 0 < length ps) };

    // and each of its corners has coordinates from −5 to 5.
    ghost near: { (b : Self) (n : ℕ) → IfOk (meaning b n) (λ ps. AllByRecursion (Near 5) ps) };
}

// A book of parts, asked by part number. No call changes anything.
pub trait PartBook: Meaning {
    // A corner whose product with the direction is largest; among equals the choice is free. Whatever is promised of a part is said of its meaning.
    fn farthest_along(&self, part: u16, direction: Direction) -> Result<PartCorner, Refusal>
        ensures { Found spot (Self.Meaning.meaning self.now part) (heading direction) result };

    // The k-th corner from 0, or nothing where the part has no more than k.
    fn corner(&self, part: u16, k: usize) -> Result<Option<PartCorner>, Refusal>
        ensures { told result ≡ corner_of (Self.Meaning.meaning self.now part) k };
}

// A farthest corner along a direction of any three numbers: refused first where one is beyond ±2,000,000,000, then by the part's slip.
pub fn farthest<B: PartBook>(book: &B, part: u16, direction: Point) -> Result<PartCorner, Refusal>
    ensures { Sought (B.Meaning.meaning book.now part) (at direction) result }
{
    book.farthest_along(part, Direction::try_from(direction)?)
}
