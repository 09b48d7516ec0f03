// Confirming a step.
ghost use Rattle.std.specs.Prelude.{not, ◌||◌, ◌≡◌, Ok, Option};
ghost use Rattle.mask.specs.Member.{holds};
ghost use Rattle.numbers.specs.declared.Ticket.{Ticket};
ghost use Rattle.coordinator.specs.declared.answers.After.{After};
ghost use Rattle.coordinator.specs.Confirm.{confirmed_at, after_confirm, after_confirm_tested};

use crate::answers::After;
use crate::steps::Step;
use crate::{Coordinator, release, slots, views};
use mask::Set;
use numbers::{Database, Slot, Ticket};
use refusals::Refusal;

// At a database, slot j's step isn't released, or is confirmed already: it awaits no confirm.
fn is_settled(released: u32, confirmed: u32, j: Slot) -> bool
    ensures { result ≡ not (holds released j.0) || holds confirmed j.0 }
{
    !released.holds(j.0) || confirmed.holds(j.0)
}

impl Coordinator {
    // Marks the step confirmed, and releases the first of those at its database that may go then: whose it is.
    fn confirm_at(&mut self, step: Step) -> Option<Ticket>
        ensures { ◌≡◌ {A = After (Option Ticket)} (record { answer = Ok result; state = self.new }) (confirmed_at self.old step.slot.0 step.database.0) }
    {
        release::mark(&mut self.confirmed, step);
        let free = self.going_beside(step);
        if free == 0 {
            return None;
        }
        let slot = slots::lowest_of(free);
        let database = step.database;
        self.release(Step { slot, database });
        Some(Ticket(self.tickets[slot.0 as usize]))
    }

    // In place, given whether the state is sound. A flag, since the answer is promised for both, whatever the test says (`Determined`).
    pub fn confirm_tested(
        &mut self,
        sound: bool,
        ticket: Ticket,
        database: Database,
    ) -> Result<Option<Ticket>, Refusal>
        ensures { ◌≡◌ {A = After (Option Ticket)} (record { answer = result; state = self.new }) (after_confirm_tested sound self.old ticket.0 database.0) }
    {
        let found = tables::holders::holders_of(&self.tickets, &self.named, ticket);
        let slot = slots::lowest_of(found);
        let names = views::holds_at(&self.named, database, slot);
        let gone = views::at(&self.released, database);
        let settled = is_settled(gone, views::at(&self.confirmed, database), slot);
        refusals::of_step(sound, found, database, names, settled, Refusal::Settled)?;
        Ok(self.confirm_at(Step { slot, database }))
    }

    // Marks the step confirmed, and releases the first of those at that database that may go then. Ticket and database by themselves, as README has the call.
    pub fn confirm(mut self, ticket: Ticket, database: Database) -> After<Option<Ticket>>
        ensures { result ≡ after_confirm self ticket.0 database.0 }
    {
        let sound = self.is_sound();
        let answer = self.confirm_tested(sound, ticket, database);
        After {
            answer,
            state: self,
        }
    }
}
