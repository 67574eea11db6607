// What a measurement asks of a body.
ghost use Rattle.std.specs.Prelude.{List, Result};
ghost use Rattle.refusals.specs.declared.Refusal.{Refusal};
ghost use Rattle.integers.specs.Points.{Pt};
ghost use Rattle.convex.specs.Hulls.{Found};
ghost use Rattle.exact.specs.Spots.{heading, spot};

use exact::corner::Corner;
use exact::direction::Direction;
use refusals::Refusal;

// A body by its corners, of which only the farthest along a direction is asked.
pub trait Body {
    // The corners, or the slip by which every call is refused.
    ghost corners: { Self → Result (List Pt) Refusal };

    // A corner that is farthest along the direction.
    fn farthest(&self, direction: Direction) -> Result<Corner, Refusal>
        ensures { Found spot (corners self.now) (heading direction) result };
}
