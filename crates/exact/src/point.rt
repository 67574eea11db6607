// A point of the table's grid: three whole numbers, with no limit on them.
#[derive(Clone, Copy, PartialEq, Eq, Debug)]
pub struct Point {
    pub x: i64,
    pub y: i64,
    pub z: i64,
}
