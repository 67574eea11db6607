// Why there is no corner at a point.

// A coordinate lies beyond ±reach.
#[derive(Clone, Copy, PartialEq, Eq, Debug)]
pub struct TooFar {
    pub reach: u8,
}
