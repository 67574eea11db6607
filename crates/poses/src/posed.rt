// A part of a book in a pose, as a body.
ghost use Rattle.std.specs.Prelude.{◌≡◌, IfOk};
ghost use Rattle.std.specs.List.{AllByRecursion};
ghost use Rattle.integers.specs.Points.{◌+ᵛ◌};
ghost use Rattle.integers.specs.Space.{Near};
ghost use Rattle.exact.specs.Spots.{spot};
ghost use Rattle.poses.specs.Poses.{posed as posed_as};

use crate::pose::Pose;
use exact::corner::Corner;
use exact::direction::Direction;
use nearest::body::Body;
use parts::book::PartBook;
use refusals::Refusal;

// The part of this number of a book, in a pose.
#[derive_where(Clone, Copy)]
pub struct Posed<'a, B> {
    book: &'a B,
    part: u16,
    pose: Pose,
}

impl<'a, B: PartBook> Posed<'a, B> {
    // The part in the pose. Each coordinate of its corners is within ±14.
    pub fn new(book: &'a B, part: u16, pose: Pose) -> Posed<'a, B>
        ensures book { result.book.now ≡ book.now }
        ensures part { result.part ≡ part }
        ensures pose { result.pose ≡ pose }
        ensures near { IfOk (posed_as pose (B.Meaning.meaning book.now part)) (λ ps. AllByRecursion (Near 14) ps) }
    {
        Posed { book, part, pose }
    }
}

// A posed part is measured by its turned, offset and swept corners.
impl<'a, B: PartBook> Body for Posed<'a, B> {
    ghost corners = { λ p. posed_as p.pose (B.Meaning.meaning p.book.now p.part) };

    fn farthest(&self, direction: Direction) -> Result<Corner, Refusal> {
        let turn = self.pose.turn;
        let back = turn.turned_back(direction);
        let found = self.book.farthest_along(self.part, back)?;
        Ok(self.pose.moved(turn.turned(found), direction))
    }
}
