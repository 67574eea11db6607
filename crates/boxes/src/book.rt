// The box book over a list of entries that the caller lends.
ghost use Rattle.std.specs.Prelude.{◌≡◌, filter};
ghost use Rattle.std.specs.Option.{option_copied};
ghost use Rattle.std.specs.List.{slice_get};
ghost use Rattle.boxes.specs.Entries.{boxed, counts_for_part};
ghost use Rattle.boxes.specs.EntryLaws.{boxed-some, boxed-near};

use crate::entry::Entry;
use crate::reach::Reach;
use exact::corner::PartCorner;
use exact::direction::Direction;
use parts::book::{Meaning, PartBook};
use parts::octant::Octant;
use refusals::{Layer, Refusal};
use search::listed::first_best_of;

// A book of boxes: a part lists the corners of its entries, in their order. The entries are not copied.
#[derive(Clone, Copy)]
pub struct BoxBook<'a> {
    entries: &'a [Entry],
}

impl<'a> BoxBook<'a> {
    // The book of these entries.
    pub fn new(entries: &'a [Entry]) -> BoxBook<'a>
        ensures { result.entries.now ≡ entries.now }
    {
        BoxBook { entries }
    }

    // The first of the entries that count for a part, and the k-th from 0, in one walk.
    fn first_and_nth(&self, part: u16, k: usize) -> (Option<&Entry>, Option<&Entry>)
        ensures first { option_copied result.0 ≡ slice_get (filter (counts_for_part part) self.now.entries.now) 0 }
        ensures nth { option_copied result.1 ≡ slice_get (filter (counts_for_part part) self.now.entries.now) k }
    {
        let mut counting = self.entries.iter().filter(|e| e.counts_for(part));
        let Some(first) = counting.next() else {
            return (None, None);
        };
        match k {
            0 => (Some(first), Some(first)),
            n => (Some(first), counting.nth(n - 1)),
        }
    }
}

impl<'a> Meaning for BoxBook<'a> {
    ghost meaning = { λ b n. boxed b.entries.now n };

    ghost some = { λ b n. boxed-some b.entries.now n };

    ghost near = { λ b n. boxed-near b.entries.now n };
}

impl<'a> PartBook for BoxBook<'a> {
    fn farthest_along(&self, part: u16, direction: Direction) -> Result<PartCorner, Refusal> {
        let octant = Octant::towards(direction);
        first_best_of(self.entries, Reach { part, direction })
            .and_then(|best| self.entries[best.candidate].vertex_for(part, octant))
            .ok_or(Refusal::part_missing(Layer::BoxBook, part))
    }

    fn corner(&self, part: u16, k: usize) -> Result<Option<PartCorner>, Refusal> {
        let missing = Refusal::part_missing(Layer::BoxBook, part);
        let (first, entry) = self.first_and_nth(part, k / 8);
        first.ok_or(missing)?;
        let octant = Octant::numbered(k);
        // What the walk finds counts for the part, so that its box is made without a second test.
        Ok(entry.map(|e| e.vertex(octant)))
    }
}
