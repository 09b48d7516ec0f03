// Closing a job, and then the held closes that may go.
ghost use Rattle.std.specs.Prelude.{◌≡◌};
ghost use Rattle.coordinator.specs.Close.{Closing, closing};

use crate::answers::Closed;
use crate::steps::Job;
use crate::{Coordinator, may_close, slots};

impl Coordinator {
    // Closes the job; then, as long as some held close may go, the first of these. Which may go is asked anew after each, so this is no `for`, and the first is a set by a shift, since it is a slot; the tickets are an array, since there is no heap.
    pub(crate) fn close_from(&mut self, job: Job) -> Closed
        ensures { ◌≡◌ {A = Closing} (record { count = result.count; tickets = result.tickets; state = self.new }) (closing self.old job.slot.0) }
    {
        let mut tickets = [0u16; Coordinator::JOBS];
        let mut count = 0usize;
        let mut left = 1u32 << job.slot.0;
        while left != 0 {
            let slot = slots::lowest_of(left);
            tickets[count] = self.tickets[slot.0 as usize];
            count += 1;
            self.remove(Job { slot });
            left = may_close::may_close_now(&self.dependencies, self.held);
        }
        Closed {
            count: count as u32,
            tickets,
        }
    }
}
