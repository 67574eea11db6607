// The two ends of a travel, by which a part's corners are moved.
ghost use Rattle.std.specs.Prelude.{◌≡◌};
ghost use Rattle.integers.specs.Points.{◌+ᵛ◌};
ghost use Rattle.exact.specs.Space.{at, Within};
ghost use Rattle.poses.specs.Ends.{EndsOf};

use exact::corner::Shift;
use exact::point::Point;

// Two points added.
fn sum(a: Point, b: Point) -> Point
    requires { Within 18 a × Within 18 b }
    ensures { at result ≡ at a +ᵛ at b }
{
    Point {
        x: a.x + b.x,
        y: a.y + b.y,
        z: a.z + b.z,
    }
}

// Where a travel begins and where it ends.
#[derive(Clone, Copy)]
pub(crate) struct Ends {
    pub(crate) start: Shift,
    pub(crate) end: Shift,
}

impl Ends {
    // The offset, and the offset plus the travel, or nothing where one is beyond ±9.
    pub(crate) fn new(offset: Point, travel: Point) -> Option<Ends>
        ensures { EndsOf (at offset) (at travel) result }
    {
        let start = Shift::try_from(offset).ok()?;
        // A travel beyond ±18 does not end within ±9 where it starts there.
        if !travel.is_within(18) {
            return None;
        }
        let end = Shift::try_from(sum(offset, travel)).ok()?;
        Some(Ends { start, end })
    }
}
