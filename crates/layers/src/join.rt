// The join layer: one book's parts up to a number, and after them another book's.
ghost use Rattle.std.specs.Prelude.{◌≡◌, ◌-◌, ◌<◌, length, if◌then◌else◌, Some, None, nat_le};
ghost use Rattle.std.specs.List.{AllByRecursion};
ghost use Rattle.integers.specs.Space.{Near};
ghost use Rattle.layers.specs.Layers.{joined_at};
ghost use Rattle.layers.specs.Laws.{joined_keeps};

use exact::corner::PartCorner;
use exact::direction::Direction;
use parts::book::{Meaning, PartBook};
use refusals::Refusal;

// Parts 0 to `last` come from the first book; part n above it is part n − last of the second.
#[derive(Clone, Copy, Drop)]
pub struct Join<B, C> {
    pub first: B,
    pub second: C,
    pub last: u16,
}

impl<B, C> Join<B, C> {
    // The number that a part has in the second book, or nothing where it comes from the first.
    fn in_second(&self, part: u16) -> Option<u16>
        ensures { result ≡ (if nat_le part self.now.last then None else Some (part - self.now.last)) }
    {
        part.checked_sub(self.last).filter(|n| *n > 0)
    }
}

impl<B: Meaning, C: Meaning> Meaning for Join<B, C> {
    ghost meaning = { λ j n. joined_at j.last (B.Meaning.meaning j.first) (C.Meaning.meaning j.second) n };

    ghost some = { λ j. joined_keeps (λ ps. 0 < length ps) j.last (B.Meaning.meaning j.first) (C.Meaning.meaning j.second) (B.Meaning.some j.first) (C.Meaning.some j.second) };

    ghost near = { λ j. joined_keeps (λ ps. AllByRecursion (Near 5) ps) j.last (B.Meaning.meaning j.first) (C.Meaning.meaning j.second) (B.Meaning.near j.first) (C.Meaning.near j.second) };
}

// The two books are of two types, so that one helper for both calls would take two closures, and be no shorter than the two matches.
impl<B: PartBook, C: PartBook> PartBook for Join<B, C> {
    fn farthest_along(&self, part: u16, direction: Direction) -> Result<PartCorner, Refusal> {
        match self.in_second(part) {
            None => self.first.farthest_along(part, direction),
            Some(n) => self.second.farthest_along(n, direction),
        }
    }

    fn corner(&self, part: u16, k: usize) -> Result<Option<PartCorner>, Refusal> {
        match self.in_second(part) {
            None => self.first.corner(part, k),
            Some(n) => self.second.corner(n, k),
        }
    }
}
