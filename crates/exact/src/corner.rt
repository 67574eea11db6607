// Corners in three bytes, each coordinate within a reach that the type names.
ghost use Rattle.integers.specs.Points.{Pt};
ghost use Rattle.integers.specs.Space.{Near};

// A corner with each coordinate within ±REACH. (A const parameter beside a ghost field is not signed today, so it is a `u8`.)
#[derive(Clone, Copy)]
pub struct Spot<const REACH: u8> {
    pub x: i8,
    pub y: i8,
    pub z: i8,
    ghost near: { Near REACH (record { x = x; y = y; z = z }) },
}

// A corner of a part, in the part's own coordinates.
pub type PartCorner = Spot<5>;

// How far a pose moves a corner.
pub type Shift = Spot<9>;

// A corner of a body on the table: a part's own corner, moved by a pose.
pub type Corner = Spot<14>;
