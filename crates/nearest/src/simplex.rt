// The simplices of a search: one to four pairs of corners whose differences are affinely independent.
// They are a type each, not one with a const parameter N: its faces would have N - 1 pairs, and Rattle computes no const argument.
ghost use Rattle.std.specs.Prelude.{[], ◌∷◌};
ghost use Rattle.convex.specs.Simplices.{Independent};
ghost use Rattle.nearest.specs.Pairs.{betweens};

use crate::pair::Pair;

// Two pairs with different differences.
#[derive(Clone, Copy)]
pub(crate) struct Edge {
    pub(crate) a: Pair,
    pub(crate) b: Pair,
    ghost independent: { Independent (betweens (a ∷ b ∷ [])) },
}

// Three pairs whose differences lie on no line.
#[derive(Clone, Copy)]
pub(crate) struct Triangle {
    pub(crate) a: Pair,
    pub(crate) b: Pair,
    pub(crate) c: Pair,
    ghost independent: { Independent (betweens (a ∷ b ∷ c ∷ [])) },
}

// Four pairs whose differences lie in no plane.
#[derive(Clone, Copy)]
pub(crate) struct Solid {
    pub(crate) a: Pair,
    pub(crate) b: Pair,
    pub(crate) c: Pair,
    pub(crate) d: Pair,
    ghost independent: { Independent (betweens (a ∷ b ∷ c ∷ d ∷ [])) },
}

// Any of them; a single pair needs no condition.
#[derive(Clone, Copy)]
pub(crate) enum Simplex {
    One(Pair),
    Two(Edge),
    Three(Triangle),
    Four(Solid),
}
