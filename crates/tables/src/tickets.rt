// The tickets: who holds one, and whether those of the open slots differ and a free slot has none.
ghost use Rattle.std.specs.Prelude.{◌≡◌, ◌<◌};
ghost use Rattle.loops.specs.Loop.{every};
ghost use Rattle.tables.specs.Limits.{jobs};
ghost use Rattle.tables.specs.Tables.{sharers_in, holders_in};
ghost use Rattle.tables.specs.Test.{ticket_sound};
ghost use Rattle.tables.specs.Parts.{no_ticket, own_ticket, new_ticket};

use mask::Set;
use numbers::{Slot, Ticket};

// The tickets by slot, and the open slots.
#[derive(Clone, Copy)]
pub(crate) struct Tickets<'a> {
    pub(crate) by_slot: &'a [u16; Slot::COUNT],
    pub(crate) slots: u32,
}

impl Tickets<'_> {
    // The slots with ticket t, open or not. No branch: all 32 are compared at once.
    #[tactic(auto, unfolding(crate::specs::Tables::sharers_in))]
    fn sharers(self, t: u16) -> u32
        ensures { result ≡ sharers_in self.entry.by_slot.now t }
    {
        mask::gathered(|j| self.by_slot[j] == t)
    }

    // The open slots whose job holds ticket t.
    #[tactic(auto, unfolding(crate::specs::Tables::holders_in))]
    pub(crate) fn holders(self, t: Ticket) -> u32
        ensures { result ≡ holders_in self.entry.by_slot.now self.entry.slots t.0 }
    {
        self.sharers(t.0) & self.slots
    }

    // No ticket is the ticket 0, so each slot is open or has that.
    #[tactic(auto, using(crate::proofs::Owning::free_are))]
    fn free_without(self) -> bool
        ensures { result ≡ every jobs (no_ticket self.entry.by_slot.now self.entry.slots) }
    {
        self.slots | self.sharers(0) == u32::MAX
    }

    // Tickets that are equal are equal modulo 64, so slot j is looked at closely only where that was seen before. That j is a slot, the loop over the members knows.
    #[tactic(auto, using(crate::proofs::Owning::new_or_not))]
    fn is_new(self, seen: u64, j: u8) -> bool
        requires { j < jobs }
        ensures { result ≡ new_ticket self.entry.by_slot.now self.entry.slots seen j }
    {
        let t = self.by_slot[j as usize];
        seen & 1 << (t % 64) == 0 || self.holders(Ticket(t)) == 1 << j
    }

    #[tactic(auto, using(crate::proofs::Owning::walk))]
    fn open_differ(self) -> bool
        ensures { result ≡ every jobs (own_ticket self.entry.by_slot.now self.entry.slots) }
    {
        let mut seen = 0;
        for j in self.slots.members() {
            let t = self.by_slot[j as usize];
            if !self.is_new(seen, j) {
                return false;
            }
            seen |= 1 << (t % 64);
        }
        true
    }

    #[tactic(auto, using(crate::proofs::Owning::two_tests))]
    pub(crate) fn are_sound(self) -> bool
        ensures { result ≡ every jobs (ticket_sound self.entry.by_slot.now self.entry.slots) }
    {
        self.free_without() && self.open_differ()
    }
}
