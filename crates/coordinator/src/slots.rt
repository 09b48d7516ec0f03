// The slot that is meant, of a set of them.
ghost use Rattle.std.specs.Prelude.{◌≡◌};
ghost use Rattle.mask.specs.Member.{lowest};
ghost use Rattle.coordinator.specs.Limits.{jobs};

use mask::Set;
use numbers::Slot;

// The lowest slot of a set; JOBS where there is none. No Option: `holder` has it so, and the rows of a refusal are told of that slot too.
pub(crate) fn lowest_of(set: u32) -> Slot
    ensures { result.0 ≡ lowest jobs set }
{
    Slot(set.lowest() as u8)
}
