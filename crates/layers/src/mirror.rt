// The mirror layer: every corner of the book below with x negated.
ghost use Rattle.layers.specs.Layers.{mirrored};
ghost use Rattle.layers.specs.Laws.{mirrored-some, mirrored-near};

use exact::corner::PartCorner;
use exact::direction::Direction;
use parts::book::{Meaning, PartBook};
use parts::moves::Movable;
use refusals::Refusal;

// The book below seen in the mirror x = 0.
#[derive(Clone, Copy, Drop)]
pub struct Mirror<B> {
    pub book: B,
}

impl<B: Meaning> Meaning for Mirror<B> {
    ghost meaning = { λ m n. mirrored (B.Meaning.meaning m.book n) };

    ghost some = { λ b n. mirrored-some (B.Meaning.meaning b.book n) (B.Meaning.some b.book n) };

    ghost near = { λ b n. mirrored-near (B.Meaning.meaning b.book n) (B.Meaning.near b.book n) };
}

impl<B: PartBook> PartBook for Mirror<B> {
    fn farthest_along(&self, part: u16, direction: Direction) -> Result<PartCorner, Refusal> {
        self.book
            .farthest_along(part, direction.mirrored())
            .map(|c| c.mirrored())
    }

    fn corner(&self, part: u16, k: usize) -> Result<Option<PartCorner>, Refusal> {
        Ok(self.book.corner(part, k)?.map(|c| c.mirrored()))
    }
}
