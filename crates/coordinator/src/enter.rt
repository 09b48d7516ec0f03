// What an opening does to the tables. Each function is lent the tables that it needs and not the state: so it shows that it leaves the others.
ghost use Rattle.std.specs.Prelude.{◌≡◌};
ghost use Rattle.loops.specs.Loop.{over};
ghost use Rattle.mask.specs.Members.{over_members};
ghost use Rattle.coordinator.specs.Limits.{databases};
ghost use Rattle.coordinator.specs.Views.{entry};
ghost use Rattle.coordinator.specs.Change.{mark, lead};

use crate::steps::{Job, Step};
use crate::{Coordinator, release};
use mask::Set;
use numbers::Database;

// The job names the databases of its mask.
pub(crate) fn name_databases(named: &mut [u32; Coordinator::DATABASES], mask: u16, job: Job)
    ensures { named.new ≡ over_members databases mask (λ k l. mark l k job.slot.0) named.old }
{
    for k in mask.members() {
        let slot = job.slot;
        let database = Database(k);
        release::mark(named, Step { slot, database });
    }
}

// Each of the set goes before the step.
#[tactic(auto, unfolding(crate::specs::Change::lead))]
fn lead(dependencies: &mut [u32; Coordinator::STEPS], set: u32, step: Step)
    ensures { dependencies.new ≡ lead step.database.0 set step.slot.0 dependencies.old }
{
    dependencies[step.index()] |= set;
}

// At each database of the mask, those whose step there is released go before the job, confirmed or not.
pub(crate) fn lead_released(
    dependencies: &mut [u32; Coordinator::STEPS],
    released: &[u32; Coordinator::DATABASES],
    mask: u16,
    job: Job,
)
    ensures { dependencies.new ≡ over_members databases mask (λ k. lead k (entry released.now k) job.slot.0) dependencies.old }
{
    for k in mask.members() {
        let slot = job.slot;
        let database = Database(k);
        lead(dependencies, released[k as usize], Step { slot, database });
    }
}

// What was found goes before the job.
#[tactic(auto, using(loops::proofs::Turns::over_none, loops::proofs::Turns::over_more))]
pub(crate) fn lead_found(
    dependencies: &mut [u32; Coordinator::STEPS],
    found: &[u32; Coordinator::DATABASES],
    job: Job,
)
    ensures { dependencies.new ≡ over databases (λ k. lead k (entry found.now k) job.slot.0) dependencies.old }
{
    for (k, set) in found.iter().enumerate() {
        let slot = job.slot;
        let database = Database(k as u8);
        lead(dependencies, *set, Step { slot, database });
    }
}
