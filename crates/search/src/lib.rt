// The one first-best search: the first candidate that none beats, for any source of candidates and any score with a total order.
#![tactic(auto)]

ghost use Rattle.std.specs.Prelude.{◌≡◌, List};
ghost use Rattle.search.specs.Firsts.{Chosen, Step, no_better};

pub mod listed;

// A source of candidates, walked from the first to the last; `rest` are those still to come. Of two candidates the greater is the better.
// It is no `Iterator`: a search over any of those has to require that it may be called and that it ends, and a public call here requires nothing.
pub trait Candidates {
    type Item: Ord + Drop;

    ghost rest: { Self → List Self.Item };

    fn next(&mut self) -> Option<Self::Item>
        ensures { Step (rest self.old) result (rest self.new) };
}

// The first candidate that none beats: nothing exactly when there is no candidate.
pub fn first_best<C: Candidates + Drop>(mut candidates: C) -> Option<C::Item>
    ensures { Chosen (no_better C.Item.Ord.cmp) (C.Candidates.rest candidates) result }
{
    let mut best = candidates.next()?;
    while let Some(next) = candidates.next() {
        let better = next > best;
        if better {
            best = next;
        }
    }
    Some(best)
}

// A candidate with its score, by which alone it is judged.
#[derive(Clone, Copy, Drop)]
#[derive_where(PartialEq, Eq, PartialOrd, Ord; S)]
pub struct Scored<T, S> {
    #[derive_where(skip(EqHashOrd))]
    pub candidate: T,
    pub score: S,
}
