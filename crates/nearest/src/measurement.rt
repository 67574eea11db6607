// What is reported of two bodies: their nearest difference, its square, and the corners that it comes from.
use exact::corner::Corner;
use exact::fraction::Fraction;
use exact::gap::Gap;

// A corner of the first body and one of the second, whose difference counts by the weight. A weight of 0 stands for no witness: the rules of a
// measurement fill its four places with zeros after the last one, so that it has one form in fixed memory.
#[derive(Clone, Copy)]
pub struct Witness {
    pub first: Corner,
    pub second: Corner,
    pub weight: i64,
}

// The nearest difference and the square of its length, both in lowest terms; the witnesses that count come first.
#[derive(Clone, Copy)]
pub struct Measurement {
    pub difference: Fraction,
    pub gap: Gap,
    pub witnesses: [Witness; 4],
}
