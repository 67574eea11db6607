// A box of a part, by its low and its high corner.
ghost use Rattle.std.specs.Prelude.{◌≡◌, if◌then◌else◌, Some, None};
ghost use Rattle.std.specs.Option.{option_map};
ghost use Rattle.parts.specs.Boxes.{vertex, vertex as vertex_of};
ghost use Rattle.exact.specs.Spots.{spot};
ghost use Rattle.exact.specs.Space.{at, Within};
ghost use Rattle.boxes.specs.Entries.{ends, each_at_most, counts_for_part};

use exact::corner::PartCorner;
use exact::point::Point;
use parts::block::Block;
use parts::octant::Octant;

// An entry of a box book: any numbers may stand in it.
#[derive(Clone, Copy)]
pub struct Entry {
    pub part: u16,
    pub low: Point,
    pub high: Point,
}

// Whether no coordinate of a is above that of b.
fn is_under(a: Point, b: Point) -> bool
    ensures { result ≡ each_at_most (at a) (at b) }
{
    let (x, y, z) = (a.x <= b.x, a.y <= b.y, a.z <= b.z);
    x & (y & z)
}

// The corner at a point within ±5, which `PartCorner::try_from` would test once more.
fn corner(p: Point) -> PartCorner
    requires { Within 5 p }
    ensures { spot result ≡ at p }
{
    PartCorner {
        x: p.x as i8,
        y: p.y as i8,
        z: p.z as i8,
    }
}

impl Entry {
    // Whether the entry counts for a part: it is the part's, no coordinate is beyond ±5, and low is nowhere above high.
    pub fn counts_for(self, part: u16) -> bool
        ensures { result ≡ counts_for_part part self }
    {
        self.part == part
            && self.low.is_within(5)
            && self.high.is_within(5)
            && is_under(self.low, self.high)
    }

    // The box of an entry that counts for some part.
    fn block(self) -> Block
        requires { Within 5 self.low × Within 5 self.high }
        ensures { ends result ≡ (at self.low, at self.high) }
    {
        let low = corner(self.low);
        let high = corner(self.high);
        Block { low, high }
    }

    // A corner of that box.
    pub(crate) fn vertex(self, octant: Octant) -> PartCorner
        requires { Within 5 self.low × Within 5 self.high }
        ensures { spot result ≡ vertex_of (at self.low) (at self.high) octant }
    {
        self.block().corner(octant)
    }

    // The box, where the entry counts for a part.
    fn block_for(self, part: u16) -> Option<Block>
        ensures { option_map ends result ≡ (if counts_for_part part self then Some (at self.low, at self.high) else None) }
    {
        if !self.counts_for(part) {
            return None;
        }
        Some(self.block())
    }

    // A corner of the box, or nothing where the entry does not count for the part.
    pub fn vertex_for(self, part: u16, octant: Octant) -> Option<PartCorner>
        ensures { option_map spot result ≡ (if counts_for_part part self then Some (vertex (at self.low) (at self.high) octant) else None) }
    {
        self.block_for(part).map(|block| block.corner(octant))
    }
}
