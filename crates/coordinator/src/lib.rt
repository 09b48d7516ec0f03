#![tactic(auto)]
// The part between: decides for each step of each job whether it goes now or is held.
pub mod answers;
pub mod ask;
mod bound;
mod cascade;
pub mod close;
pub mod confirm;
mod enter;
mod may_close;
pub mod open;
mod order;
mod release;
mod remove;
mod slots;
mod sound;
mod steps;
mod tickets;
mod views;

ghost use Rattle.std.specs.Prelude.{◌≡◌};
ghost use Rattle.coordinator.specs.Fresh.{fresh};

use numbers::{Database, NumberMaker, Slot, Ticket};

// The state, by sets of slots. At database k: the slots whose job names k, and those whose step there is asked, released, confirmed.
// At k * JOBS + b: the slots that go before slot b at k. By slot: the job's ticket, whether its close is held. Then the opening order.
// Numbers become indices by `as`, here and below: it is proved to lose nothing, and `usize::from` says no more.
// Arrays beside each other, the opening order with zeros after it, and one table for both sides: the definitions and the bytes for C have them so.
#[derive(Clone, Copy, Debug, PartialEq, Eq)]
pub struct Coordinator {
    pub tickets: [u16; Coordinator::JOBS],
    pub held: u32,
    pub order: [u8; Coordinator::JOBS],
    pub named: [u32; Coordinator::DATABASES],
    pub asked: [u32; Coordinator::DATABASES],
    pub released: [u32; Coordinator::DATABASES],
    pub confirmed: [u32; Coordinator::DATABASES],
    pub dependencies: [u32; Coordinator::STEPS],
    pub maker: NumberMaker,
}

impl Coordinator {
    pub const JOBS: usize = Slot::COUNT;

    pub const DATABASES: usize = Database::COUNT;

    pub const STEPS: usize = numbers::STEPS;

    // A fresh start at any first candidate.
    pub fn fresh(first: Ticket) -> Coordinator
        ensures { result ≡ fresh first.0 }
    {
        Coordinator {
            tickets: [0u16; Coordinator::JOBS],
            held: 0,
            order: [0u8; Coordinator::JOBS],
            named: [0u32; Coordinator::DATABASES],
            asked: [0u32; Coordinator::DATABASES],
            released: [0u32; Coordinator::DATABASES],
            confirmed: [0u32; Coordinator::DATABASES],
            dependencies: [0u32; Coordinator::STEPS],
            maker: NumberMaker { next: first.0 },
        }
    }

    // The plain fresh start.
    pub fn plain() -> Coordinator
        ensures { result ≡ fresh 0 }
    {
        Coordinator::fresh(Ticket(0))
    }
}
