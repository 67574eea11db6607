// Layers over any part book, each a part book itself: mirror, swell and join. A slip from below passes through unaltered.
#![tactic(auto)]

pub mod join;
pub mod mirror;
pub mod swell;
