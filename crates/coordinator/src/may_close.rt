// When a job may close: its steps are confirmed, and nobody goes before it any more.
ghost use Rattle.std.specs.Prelude.{not, ◌&&◌, ◌≡◌, ℕ};
ghost use Rattle.mask.specs.Member.{holds};
ghost use Rattle.coordinator.specs.Tables.{may_close_in, may_close_now_in, all_confirmed_in};

use crate::Coordinator;
use crate::steps::Job;
use mask::Set;
use numbers::Slot;

// The slots whose step at a database is named and not confirmed, told by its members.
fn unconfirmed(named: u32, confirmed: u32) -> u32
    ensures { (j : ℕ) → holds result j ≡ holds named j && not (holds confirmed j) }
{
    named.less(confirmed)
}

// Every step of the job in slot j is confirmed: it is not among those with a step that isn't.
#[tactic(auto, using(crate::proofs::Unconfirmed::gathers), unfolding(crate::specs::Tables::all_confirmed_in))]
pub(crate) fn all_confirmed<'a>(
    named: &'a [u32; Coordinator::DATABASES],
    confirmed: &'a [u32; Coordinator::DATABASES],
    j: Slot,
) -> bool
    ensures { result ≡ all_confirmed_in named.now confirmed.now j.0 }
{
    let mut unfinished = 0u32;
    for (k, named) in named.iter().enumerate() {
        unfinished |= unconfirmed(*named, confirmed[k]);
    }
    !unfinished.holds(j.0)
}

// No dependency goes into the job at any database.
pub(crate) fn may_close(dependencies: &[u32; Coordinator::STEPS], job: Job) -> bool
    ensures { result ≡ may_close_in dependencies.now job.slot.0 }
{
    let b = job.slot.0 as usize;
    let (by_database, _) = dependencies.as_chunks::<{ Coordinator::JOBS }>();
    by_database.iter().all(|rows| rows[b] == 0)
}

// The held closes that may go. Only held slots are looked at, and not all as by mask::gathered: mostly there are few. Each goes to its place by a shift, as `gathered` does it.
pub(crate) fn may_close_now(dependencies: &[u32; Coordinator::STEPS], held: u32) -> u32
    ensures { result ≡ may_close_now_in dependencies.now held }
{
    let mut found = 0u32;
    for j in held.members() {
        let job = Job { slot: Slot(j) };
        found |= u32::from(may_close(dependencies, job)) << j;
    }
    found
}
