// A job leaves the tables: each function takes its slot out of one of them.
ghost use Rattle.std.specs.Prelude.{◌≡◌, length};
ghost use Rattle.coordinator.specs.Change.{strike, unled, removed};

use crate::steps::Job;
use crate::{Coordinator, order};
use mask::Set;
use numbers::Slot;

// Slot j leaves each of the sets.
#[tactic(auto, using(loops::proofs::Turns::turns), unfolding(crate::specs::Change::strike))]
fn strike(sets: &mut [u32], j: Slot)
    ensures { sets.new ≡ strike (length sets.old) j.0 sets.old }
{
    for set in sets.iter_mut() {
        *set = set.without_member(j.0);
    }
}

// Nobody goes before the job. By number: after chunks_exact_mut a proof knows no element of the table (tried).
#[tactic(auto, using(loops::proofs::Turns::turns), unfolding(crate::specs::Change::unled))]
fn unlead(dependencies: &mut [u32; Coordinator::STEPS], job: Job)
    ensures { dependencies.new ≡ unled job.slot.0 dependencies.old }
{
    let b = job.slot.0 as usize;
    for k in 0..Coordinator::DATABASES {
        dependencies[k * Coordinator::JOBS + b] = 0;
    }
}

impl Coordinator {
    // The job goes with all its dependencies.
    pub(crate) fn remove(&mut self, job: Job)
        ensures { self.new ≡ removed self.old job.slot.0 }
    {
        let slot = job.slot;
        self.tickets[slot.0 as usize] = 0;
        self.held = self.held.without_member(slot.0);
        let place = order::place(&self.order, slot);
        self.order = order::moved_up(self.order, place);
        strike(&mut self.named, slot);
        strike(&mut self.asked, slot);
        strike(&mut self.released, slot);
        strike(&mut self.confirmed, slot);
        strike(&mut self.dependencies, slot);
        unlead(&mut self.dependencies, job);
    }
}
