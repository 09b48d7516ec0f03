// Closing a job.
ghost use Rattle.std.specs.Prelude.{◌≡◌, Option};
ghost use Rattle.coordinator.specs.declared.answers.After.{After};
ghost use Rattle.coordinator.specs.declared.answers.Closed.{Closed};
ghost use Rattle.coordinator.specs.Close.{after_close, after_close_tested};

use crate::answers::{After, Closed};
use crate::steps::Job;
use crate::{Coordinator, may_close, slots};
use mask::Set;
use numbers::Ticket;
use refusals::Refusal;

impl Coordinator {
    // In place, given whether the state is sound. A flag, since the answer is promised for both, whatever the test says (`Determined`).
    pub fn close_tested(&mut self, sound: bool, ticket: Ticket) -> Result<Option<Closed>, Refusal>
        ensures { ◌≡◌ {A = After (Option Closed)} (record { answer = result; state = self.new }) (after_close_tested sound self.old ticket.0) }
    {
        let found = tables::holders::holders_of(&self.tickets, &self.named, ticket);
        let slot = slots::lowest_of(found);
        let finished = may_close::all_confirmed(&self.named, &self.confirmed, slot);
        let waits = self.held.holds(slot.0);
        refusals::of_close(sound, found, finished, waits)?;
        let job = Job { slot };
        if may_close::may_close(&self.dependencies, job) {
            return Ok(Some(self.close_from(job)));
        }
        self.held = self.held.with_member(slot.0);
        Ok(None)
    }

    // Closes the job, and then the held closes that may go. Where it may not close, its close is held.
    pub fn close(mut self, ticket: Ticket) -> After<Option<Closed>>
        ensures { result ≡ after_close self ticket.0 }
    {
        let sound = self.is_sound();
        let answer = self.close_tested(sound, ticket);
        After {
            answer,
            state: self,
        }
    }
}
