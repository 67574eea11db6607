// A body that is given by the list of its corners.
ghost use Rattle.std.specs.Prelude.{◌≡◌, ◌<◌, List, [], map, length, Some, Ok, Err, codes};
ghost use Rattle.exact.specs.Spots.{spot};

use crate::body::Body;
use exact::corner::Corner;
use exact::direction::Direction;
use exact::scores::farthest;
use refusals::Refusal;
use std::error::Error;
use std::fmt;

// The corners of a body: at least one.
#[derive(Clone, Copy)]
pub struct Corners<'a> {
    list: &'a [Corner],
    ghost some: { 0 < length list.now },
}

// A list without corners makes no body.
#[derive(Clone, Copy, PartialEq, Eq, Debug)]
pub struct NoCorners;

impl fmt::Display for NoCorners {
    ghost output = { λ _. Some (codes "a body has no corners") };

    fn fmt<W: fmt::Write>(&self, f: &mut fmt::Formatter<W>) -> fmt::Result {
        f.write_str("a body has no corners")
    }
}

impl Error for NoCorners {}

// The body with these corners, refused where there are none.
impl<'a> TryFrom<&'a [Corner]> for Corners<'a> {
    type Error = NoCorners;

    ghost try_from_gives = { λ list r. elim r [ Ok b ↦ b.list.now ≡ list.now | Err e ↦ list.now ≡ [] ] };

    fn try_from(list: &'a [Corner]) -> Result<Corners<'a>, NoCorners> {
        if list.is_empty() {
            return Err(NoCorners);
        }
        Ok(Corners { list })
    }
}

impl<'a> Body for Corners<'a> {
    ghost corners = { λ b. Ok (map spot b.list.now) };

    fn farthest(&self, direction: Direction) -> Result<Corner, Refusal> {
        let best = farthest(self.list, direction).unwrap();
        let place = best.candidate;
        Ok(self.list[place])
    }
}
