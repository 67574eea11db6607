// Parts in poses: turned, offset and swept along a travel, each a body for measuring.
#![tactic(auto)]

mod ends;
pub mod measures;
pub mod pose;
pub mod posed;
pub mod ranges;
pub mod turn;
