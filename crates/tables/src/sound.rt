// Whether the tables are sound. It is tested before every call, so all of it is operations on sets of slots.
ghost use Rattle.std.specs.Prelude.{◌≡◌, ◌<◌};
ghost use Rattle.loops.specs.Loop.{every};
ghost use Rattle.tables.specs.Limits.{jobs, databases};
ghost use Rattle.tables.specs.Tables.{entry};
ghost use Rattle.tables.specs.Test.{place_sound, steps_sound, database_sound, sound_in};
ghost use Rattle.tables.specs.Parts.{place_in};

use crate::marks::Marks;
use crate::tickets::Tickets;
use crate::{Tables, slots};
use mask::Set;
use numbers::{Database, Slot};

// Place i of the opening order, with slot o: one of those left, or zero past the n open ones.
#[tactic(auto, using(crate::proofs::Testing::one_place))]
fn place_sound(left: u32, n: usize, i: usize, o: u8) -> bool
    ensures { result ≡ place_in left n i o }
{
    if i < n { left.holds(o) } else { o == 0 }
}

impl Tables<'_> {
    #[tactic(auto, using(crate::proofs::Testing::places))]
    fn order_sound(self, slots: u32) -> bool
        ensures { result ≡ every jobs (place_sound self.entry.order.now slots) }
    {
        let n = slots.size() as usize;
        let mut listed = 0u32;
        for (i, o) in self.order.iter().enumerate() {
            if !place_sound(slots.less(listed), n, i, *o) {
                return false;
            }
            // Slower with `with_member` (tried), which tests once more that o is a slot.
            listed |= 1 << *o;
        }
        true
    }

    // The steps at database k, whose rows these are.
    fn steps_at(self, k: usize, rows: &[u32; Slot::COUNT]) -> bool
        requires { k < databases }
        ensures { let t = self.entry in result ≡ steps_sound (entry t.named.now k) (entry t.asked.now k) (entry t.released.now k) (entry t.confirmed.now k) t.held rows.now }
    {
        let marks = Marks {
            named: self.named[k],
            asked: self.asked[k],
            released: self.released[k],
            confirmed: self.confirmed[k],
        };
        marks.steps_sound(self.held, rows)
    }

    fn databases_sound(self) -> bool
        ensures { let t = self.entry in result ≡ every databases (database_sound t.held t.named.now t.asked.now t.released.now t.confirmed.now t.dependencies.now) }
    {
        let dependencies = self.dependencies;
        let (by_database, _) = dependencies.as_chunks::<{ Slot::COUNT }>();
        by_database
            .iter()
            .enumerate()
            .all(|(k, rows)| self.steps_at(k, rows))
    }

    // All of it.
    #[tactic(auto, unfolding(crate::specs::Test::sound_in))]
    pub fn are_sound(self) -> bool
        ensures { let t = self.entry in result ≡ sound_in t.tickets.now t.held t.order.now t.named.now t.asked.now t.released.now t.confirmed.now t.dependencies.now }
    {
        let slots = slots::open_slots(self.named);
        let tickets = Tickets {
            by_slot: self.tickets,
            slots,
        };
        self.held.less(slots) == 0
            && tickets.are_sound()
            && self.order_sound(slots)
            && self.databases_sound()
    }
}
