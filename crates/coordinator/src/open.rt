// Opening a job.
ghost use Rattle.std.specs.Prelude.{◌≡◌, Ok};
ghost use Rattle.mask.specs.Member.{size};
ghost use Rattle.tables.specs.Tables.{open_in};
ghost use Rattle.coordinator.specs.declared.answers.After.{After};
ghost use Rattle.coordinator.specs.declared.answers.Opened.{Opened};
ghost use Rattle.coordinator.specs.Limits.{jobs};
ghost use Rattle.coordinator.specs.Open.{free_slot, accepted, after_open, after_open_tested};

use crate::answers::{After, Opened};
use crate::steps::Job;
use crate::{Coordinator, enter, slots, tickets};
use mask::Set;
use refusals::Refusal;

impl Coordinator {
    // The job takes the first slot that is free of the open ones, and a number; those before it that it has to wait for are put there.
    fn accept(&mut self, slots: u32, mask: u16) -> Opened
        requires { (slots ≡ open_in self.old.named) × ¬ (size jobs slots ≡ jobs) }
        ensures { ◌≡◌ {A = After Opened} (record { answer = Ok result; state = self.new }) (accepted self.old (free_slot self.old) mask) }
    {
        let slot = slots::lowest_of(!slots);
        let count = slots.size() as usize;
        let held = tickets::held_tickets(&self.tickets, &self.order, count);
        let ticket = self.maker.take(&held[..count]);
        self.tickets[slot.0 as usize] = ticket.0;
        self.order[count] = slot.0;
        let job = Job { slot };
        enter::name_databases(&mut self.named, mask, job);
        enter::lead_released(&mut self.dependencies, &self.released, mask, job);
        let sought = search::search(&self.named, &self.dependencies, slot);
        enter::lead_found(&mut self.dependencies, &sought.found, job);
        let added = search::count_all(&sought.found);
        Opened {
            ticket,
            added,
            moves: sought.moves,
        }
    }

    // In place, given whether the state is sound. A flag, since the answer is promised for both, whatever the test says (`Determined`).
    pub fn open_tested(&mut self, sound: bool, mask: u16) -> Result<Opened, Refusal>
        ensures { ◌≡◌ {A = After Opened} (record { answer = result; state = self.new }) (after_open_tested sound self.old mask) }
    {
        let slots = tables::slots::open_slots(&self.named);
        refusals::of_open(sound, mask, slots)?;
        Ok(self.accept(slots, mask))
    }

    // Gives the job a slot and a number, and puts those before it that it has to wait for.
    pub fn open(mut self, mask: u16) -> After<Opened>
        ensures { result ≡ after_open self mask }
    {
        let sound = self.is_sound();
        let answer = self.open_tested(sound, mask);
        After {
            answer,
            state: self,
        }
    }
}
