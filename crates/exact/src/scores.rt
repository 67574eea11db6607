// The two scores: products, of which the larger is better, and gaps, of which the narrower is better; and the searches by them.
ghost use Rattle.std.specs.Prelude.{◌≡◌};
ghost use Rattle.integers.specs.Points.{dot};
ghost use Rattle.exact.specs.Spots.{spot, heading};
ghost use Rattle.exact.specs.Finds.{Farthest, Narrowest};

use crate::corner::Corner;
use crate::direction::Direction;
use crate::gap::Gap;
use search::Scored;
use search::listed::{Scoring, first_best_of};
use std::cmp::Reverse;

// The product of a corner and a direction, as a score.
#[derive(Clone, Copy, PartialEq, Eq, PartialOrd, Ord)]
pub struct Product(pub i64);

// A corner is scored by its product with the direction.
impl Scoring<Corner> for Direction {
    type Score = Product;

    ghost score_of = { λ d c. record { 0 = dot (heading d) (spot c) } };

    fn score(&self, element: &Corner) -> Product {
        Product(self.product(*element))
    }
}

// An element that is a score is scored by itself.
#[derive(Clone, Copy)]
pub struct Itself;

impl<S: Ord + Copy> Scoring<S> for Itself {
    type Score = S;

    ghost score_of = { λ _ s. s };

    fn score(&self, element: &S) -> S {
        *element
    }
}

// The least score of a scoring is the best.
#[derive(Clone, Copy, Drop)]
pub struct Least<F>(pub F);

impl<T, F: Scoring<T>> Scoring<T> for Least<F> {
    type Score = Reverse<F::Score>;

    ghost score_of = { λ s x. record { 0 = F.Scoring.score_of s.0 x } };

    fn score(&self, element: &T) -> Reverse<F::Score> {
        Reverse(self.0.score(element))
    }
}

// The first corner that is farthest along a direction, by its place, with its product.
#[tactic(auto, using(crate::proofs::Ranks::farthest_placed))]
pub fn farthest(corners: &[Corner], direction: Direction) -> Option<Scored<usize, Product>>
    ensures { Farthest corners.now (heading direction) result }
{
    first_best_of(corners, direction)
}

// The first of the narrowest gaps, by its place, with the gap.
pub fn narrowest(gaps: &[Gap]) -> Option<Scored<usize, Gap>>
    ensures { Narrowest gaps.now result }
{
    first_best_of(gaps, Itself)
}
