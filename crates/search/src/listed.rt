// The first best of a list. Its places are the candidates, since a caller names a corner or a station by its place, and nothing of the list is copied.
ghost use Rattle.std.specs.Prelude.{◌≡◌, ◌+◌, ◌<◌, ◌^◌, length};
ghost use Rattle.std.specs.Iterator.Adapters.{enumerate_source, enumerate_count};
ghost use Rattle.std.specs.Slice.Iter.{iter_rest};
ghost use Rattle.search.specs.Firsts.{no_better};
ghost use Rattle.search.specs.Places.{scored, Placed};

use crate::{Candidates, Scored, first_best};
use std::iter::Enumerate;
use std::slice::Iter;

// How an element of a list is scored; the greater score is the better.
// It is no closure: a search by one has to require that it may be called, and a public call here requires nothing.
pub trait Scoring<T> {
    type Score: Ord + Drop;

    ghost score_of: { Self → T → Self.Score };

    fn score(&self, element: &T) -> Self::Score
        ensures { result ≡ score_of self.now element.now };
}

// The places of a list that are still to come, each with the score of its element.
#[derive(Drop)]
struct Listed<'a, T, F> {
    places: Enumerate<Iter<'a, T>>,
    scoring: F,
    ghost fits: { enumerate_count places + length (iter_rest (enumerate_source places)) < 2 ^ 64 },
}

impl<'a, T, F: Scoring<T> + Drop> Candidates for Listed<'a, T, F> {
    type Item = Scored<usize, F::Score>;

    ghost rest = { λ s. scored (F.Scoring.score_of s.scoring) (enumerate_count s.places) (iter_rest (enumerate_source s.places)) };

    fn next(&mut self) -> Option<Scored<usize, F::Score>> {
        let (candidate, element) = self.places.next()?;
        Some(Scored {
            candidate,
            score: self.scoring.score(element),
        })
    }
}

// The first place of a list whose score none beats, with that score: nothing exactly when the list is empty.
pub fn first_best_of<T, F: Scoring<T> + Drop>(
    elements: &[T],
    scoring: F,
) -> Option<Scored<usize, F::Score>>
    ensures { Placed (no_better F.Score.Ord.cmp) (F.Scoring.score_of scoring) elements.now result }
{
    let places = elements.iter().enumerate();
    first_best(Listed { places, scoring })
}
