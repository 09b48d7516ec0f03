// The tickets that open jobs hold.
ghost use Rattle.std.specs.Prelude.{◌≡◌, ◌≤◌, take};
ghost use Rattle.loops.specs.Table.{table};
ghost use Rattle.coordinator.specs.Limits.{jobs};
ghost use Rattle.coordinator.specs.Views.{entry};
ghost use Rattle.coordinator.specs.Tables.{ticket_at};

use crate::Coordinator;

// The ticket in slot j, or 0 where there is no such slot: the opening order of a state that was handed in may hold any byte.
fn ticket_at(tickets: &[u16; Coordinator::JOBS], j: u8) -> u16
    ensures { result ≡ ticket_at tickets.now j }
{
    tickets.get(j as usize).copied().unwrap_or(0)
}

// The tickets of the n open jobs, no more than there are slots, in the order of their opening, with zeros after them: there is no heap for a Vec.
pub(crate) fn held_tickets(
    tickets: &[u16; Coordinator::JOBS],
    order: &[u8; Coordinator::JOBS],
    n: usize,
) -> [u16; Coordinator::JOBS]
    requires { n ≤ jobs }
    ensures { take n result ≡ table n (λ i. ticket_at tickets.now (entry order.now i)) }
{
    let mut held = [0u16; Coordinator::JOBS];
    for (i, slot) in order[..n].iter().enumerate() {
        held[i] = ticket_at(tickets, *slot);
    }
    held
}
