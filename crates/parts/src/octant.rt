// The eight corners of a box: on each axis the corner takes the low side or the high side.

// The side of a box on one axis.
#[derive(Clone, Copy)]
pub enum Side {
    Low,
    High,
}

// Which corner of a box.
#[derive(Clone, Copy)]
pub struct Octant {
    pub x: Side,
    pub y: Side,
    pub z: Side,
}
