// A squared gap p / q. The bounds of p and q are those that a measurement keeps to, so that cross products of two gaps fit 64 bits.
ghost use Rattle.std.specs.Prelude.{◌<◌, ◌≤◌};

#[derive(Clone, Copy)]
pub struct Gap {
    pub p: u64,
    pub q: u64,
    ghost low: { p ≤ 18000000000 },
    ghost over: { 0 < q },
    ghost few: { q ≤ 120000000 },
}
