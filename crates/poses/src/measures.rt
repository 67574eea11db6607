// Measuring two parts in their poses.
ghost use Rattle.nearest.specs.Measurements.{Measured};
ghost use Rattle.poses.specs.Poses.{posed as posed_as};

use crate::posed::Posed;
use nearest::measure::measure;
use nearest::measurement::Measurement;
use parts::book::PartBook;
use refusals::Refusal;

// The nearest difference of two parts in their poses, or the slip of one that its book refuses: the first part's where both do.
// The clause spells out each posed part: `Body`'s own `corners` would need both lifetimes named here, and a look into the impl.
pub fn measure_parts<B: PartBook, C: PartBook>(
    first: &Posed<'_, B>,
    second: &Posed<'_, C>,
) -> Result<Measurement, Refusal>
    ensures { Measured (posed_as first.now.pose (B.Meaning.meaning first.now.book.now first.now.part)) (posed_as second.now.pose (C.Meaning.meaning second.now.book.now second.now.part)) result }
{
    measure(first, second)
}
