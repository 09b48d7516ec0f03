// Whose ticket it is.
ghost use Rattle.std.specs.Prelude.{◌≡◌};
ghost use Rattle.tables.specs.Tables.{open_in, holders_in};

use crate::slots;
use crate::tickets::Tickets;
use numbers::{Database, Slot, Ticket};

// The open slots whose job holds ticket t, where the open slots are not at hand.
pub fn holders_of(tickets: &[u16; Slot::COUNT], named: &[u32; Database::COUNT], t: Ticket) -> u32
    ensures { result ≡ holders_in tickets.now (open_in named.now) t.0 }
{
    let slots = slots::open_slots(named);
    let tickets = Tickets {
        by_slot: tickets,
        slots,
    };
    tickets.holders(t)
}
