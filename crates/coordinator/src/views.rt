// What a table means at a database and a slot that may be any number.
ghost use Rattle.std.specs.Prelude.{◌≡◌};
ghost use Rattle.mask.specs.Member.{holds};
ghost use Rattle.coordinator.specs.Tables.{set_at};

use crate::Coordinator;
use mask::Set;
use numbers::{Database, Slot};

// The set at database k; beyond the last database the empty one, as `set_at` has it. `ticket_at` is the same chain of two methods: a generic one would be longer than both.
pub(crate) fn at(sets: &[u32; Coordinator::DATABASES], k: Database) -> u32
    ensures { result ≡ set_at sets.now k.0 }
{
    sets.get(k.0 as usize).copied().unwrap_or(0)
}

// Whether the set at database k holds slot j.
pub(crate) fn holds_at(sets: &[u32; Coordinator::DATABASES], k: Database, j: Slot) -> bool
    ensures { result ≡ holds (set_at sets.now k.0) j.0 }
{
    at(sets, k).holds(j.0)
}
