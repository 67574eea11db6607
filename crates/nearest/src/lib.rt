// The exact nearest distance of two convex bodies, each known by its farthest corners: measured without rounding and without a limit on steps.
#![tactic(auto)]

pub mod body;
mod carrier;
pub mod corners;
pub mod measure;
pub mod measurement;
mod pair;
mod rounds;
mod simplex;
mod solves;
mod span;
mod steps;
mod vectors;
