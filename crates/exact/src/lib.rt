// Exact whole-number arithmetic of Gap: points, fractions in lowest terms, and gaps with the searches by them.
#![tactic(auto)]

pub mod corner;
pub mod direction;
pub mod fraction;
pub mod gap;
pub mod gaps;
pub mod lowest;
pub mod point;
pub mod products;
pub mod scores;
pub mod texts;
pub mod too_far;
