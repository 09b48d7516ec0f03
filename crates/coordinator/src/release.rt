// What ask and confirm share: when a step may go, which of those that wait may, and what a release does to the tables.
ghost use Rattle.std.specs.Prelude.{◌≡◌};
ghost use Rattle.mask.specs.Member.{within};
ghost use Rattle.coordinator.specs.Limits.{jobs};
ghost use Rattle.coordinator.specs.Change.{mark, lead_to};
ghost use Rattle.coordinator.specs.Release.{may_go_at, release};

use crate::Coordinator;
use crate::steps::Step;
use mask::Set;

// A step may go: every one that leads into it is confirmed.
pub(crate) fn may_go(into: u32, confirmed: u32) -> bool
    ensures { result ≡ within jobs into confirmed }
{
    into & !confirmed == 0
}

// The step's job joins the set at its database. By a shift, here and in `lead_to`: `with_member` would test again that it is a slot.
pub(crate) fn mark(sets: &mut [u32; Coordinator::DATABASES], step: Step)
    ensures { sets.new ≡ mark sets.old step.database.0 step.slot.0 }
{
    sets[step.database.0 as usize] |= 1 << step.slot.0;
}

// At the step's database, its job goes before each of the later ones. As `put_ahead` of crate search, with words of 32 for 16: one for both would be lent a part of the table, and be longer than the two.
fn lead_to(dependencies: &mut [u32; Coordinator::STEPS], step: Step, later: u32)
    ensures { dependencies.new ≡ lead_to step.database.0 step.slot.0 later dependencies.old }
{
    let first = step.database.0 as usize * Coordinator::JOBS;
    for b in later.members() {
        dependencies[first + b as usize] |= 1 << step.slot.0;
    }
}

impl Coordinator {
    // The step goes, before each that names its database and is not released.
    #[tactic(auto, unfolding(crate::specs::Release::release, crate::specs::Change::mark_released, crate::specs::Change::with_dependencies))]
    pub(crate) fn release(&mut self, step: Step)
        ensures { self.new ≡ release self.old step.slot.0 step.database.0 }
    {
        mark(&mut self.released, step);
        let at = step.database.0 as usize;
        let later = self.named[at].less(self.released[at]);
        lead_to(&mut self.dependencies, step, later);
    }

    // The asked and unreleased steps at the step's database that may go, by their slots. All rows are read without a branch: that is faster than to pick those that wait.
    pub(crate) fn going_beside(&self, step: Step) -> u32
        ensures { result ≡ may_go_at self.now step.database.0 }
    {
        let at = step.database.0 as usize;
        let first = at * Coordinator::JOBS;
        let confirmed = self.confirmed[at];
        let free = mask::gathered(|j| may_go(self.dependencies[first + j], confirmed));
        self.asked[at].less(self.released[at]) & free
    }
}
