// The jobs and steps that the tables have a place for: their numbers are in range.
ghost use Rattle.std.specs.Prelude.{◌≡◌, ◌+◌, ◌*◌, ◌<◌};
ghost use Rattle.coordinator.specs.Limits.{jobs, databases};

use crate::Coordinator;
use numbers::{Database, Slot};

// A job, by its slot.
#[derive(Clone, Copy)]
pub(crate) struct Job {
    pub(crate) slot: Slot,
    ghost in_range: { slot.0 < jobs },
}

// A job's step at a database.
#[derive(Clone, Copy)]
pub(crate) struct Step {
    pub(crate) slot: Slot,
    pub(crate) database: Database,
    ghost in_range: { (slot.0 < jobs) × (database.0 < databases) },
}

impl Step {
    // Where it stands in the dependencies.
    pub(crate) fn index(self) -> usize
        ensures { result ≡ self.database.0 * jobs + self.slot.0 }
    {
        self.database.0 as usize * Coordinator::JOBS + self.slot.0 as usize
    }
}
