// The number maker: opening gives out the first number, from the candidate upwards, that no open job holds.
ghost use Rattle.std.specs.Prelude.{◌≡◌};
ghost use Rattle.numbers.specs.Ticket.{absent_in, after, ticket_from};

use crate::{NumberMaker, Ticket};

#[tactic(auto, using(crate::proofs::Search::absent_is))]
pub fn absent(held: &[u16], t: u16) -> bool
    ensures { result ≡ absent_in held.now t }
{
    !held.contains(&t)
}

pub fn after(t: u16) -> u16
    ensures { result ≡ after t }
{
    t.wrapping_add(1)
}

// As many turns as numbers are held pass over them all, so what is left after the last turn is free.
pub fn free_from(from: u16, held: &[u16]) -> u16
    ensures { result ≡ ticket_from held.now from }
{
    let mut t = from;
    for _ in held {
        if absent(held, t) {
            return t;
        }
        t = after(t);
    }
    t
}

impl NumberMaker {
    // Gives out a number, and moves the candidate on to the one after it.
    pub fn take(&mut self, held: &[u16]) -> Ticket
        ensures { (result.0 ≡ ticket_from held.now self.old.next) × (self.new.next ≡ after result.0) }
    {
        let t = free_from(self.next, held);
        self.next = after(t);
        Ticket(t)
    }
}
