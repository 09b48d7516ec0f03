// Asking for a step.
ghost use Rattle.std.specs.Prelude.{◌≡◌, Ok};
ghost use Rattle.coordinator.specs.declared.answers.After.{After};
ghost use Rattle.coordinator.specs.declared.answers.Asked.{Asked};
ghost use Rattle.coordinator.specs.Ask.{asked_for, after_ask, after_ask_tested};

use crate::answers::{After, Asked};
use crate::steps::Step;
use crate::{Coordinator, release, slots, views};
use numbers::{Database, Ticket};
use refusals::Refusal;

impl Coordinator {
    // Marks the step asked, and releases it if it may go.
    #[tactic(auto, unfolding(crate::specs::Ask::asked_for, crate::specs::Change::mark_asked, crate::specs::Release::may_go, crate::specs::Views::into))]
    fn ask_for(&mut self, step: Step) -> Asked
        ensures { ◌≡◌ {A = After Asked} (record { answer = Ok result; state = self.new }) (asked_for self.old step.slot.0 step.database.0) }
    {
        release::mark(&mut self.asked, step);
        let into = self.dependencies[step.index()];
        let confirmed = self.confirmed[step.database.0 as usize];
        if !release::may_go(into, confirmed) {
            return Asked::Held;
        }
        self.release(step);
        Asked::Released
    }

    // In place, given whether the state is sound. A flag, since the answer is promised for both, whatever the test says (`Determined`).
    pub fn ask_tested(
        &mut self,
        sound: bool,
        ticket: Ticket,
        database: Database,
    ) -> Result<Asked, Refusal>
        ensures { ◌≡◌ {A = After Asked} (record { answer = result; state = self.new }) (after_ask_tested sound self.old ticket.0 database.0) }
    {
        let found = tables::holders::holders_of(&self.tickets, &self.named, ticket);
        let slot = slots::lowest_of(found);
        let names = views::holds_at(&self.named, database, slot);
        let before = views::holds_at(&self.asked, database, slot);
        refusals::of_step(sound, found, database, names, before, Refusal::AskedBefore)?;
        Ok(self.ask_for(Step { slot, database }))
    }

    // Marks the step asked, and releases it if it may go. Ticket and database by themselves, as README has the call.
    pub fn ask(mut self, ticket: Ticket, database: Database) -> After<Asked>
        ensures { result ≡ after_ask self ticket.0 database.0 }
    {
        let sound = self.is_sound();
        let answer = self.ask_tested(sound, ticket, database);
        After {
            answer,
            state: self,
        }
    }
}
