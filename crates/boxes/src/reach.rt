// How far an entry's box reaches along a direction.
ghost use Rattle.exact.specs.Spots.{heading};
ghost use Rattle.boxes.specs.Reaches.{reach_of};

use crate::entry::Entry;
use exact::direction::Direction;
use exact::scores::Product;
use parts::octant::Octant;
use search::listed::Scoring;

// An entry is scored by the product of its box's farthest corner, and has no score where it does not count for the part.
#[derive(Clone, Copy)]
pub(crate) struct Reach {
    pub(crate) part: u16,
    pub(crate) direction: Direction,
}

impl Scoring<Entry> for Reach {
    type Score = Option<Product>;

    ghost score_of = { λ s e. reach_of s.part (heading s.direction) e };

    fn score(&self, element: &Entry) -> Option<Product> {
        let farthest = element.vertex_for(self.part, Octant::towards(self.direction));
        farthest.map(|c| Product(self.direction.product(c.into())))
    }
}
