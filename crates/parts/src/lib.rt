// Parts and the interface of a part book: where corners come from, for everything that measures them.
#![tactic(auto)]

pub mod block;
pub mod book;
pub mod moves;
pub mod octant;
pub mod octants;
