#![tactic(auto)]
// What the tables of a state say by themselves: who is open, who holds a ticket, and whether they are sound. Tables are lent; there is no state here.
pub mod holders;
mod marks;
mod rows;
pub mod slots;
mod sound;
mod tickets;

use numbers::{Database, STEPS, Slot};

// The tables of a state. At database k: the slots whose job names k, and those whose step there is asked, released, confirmed.
// At k * Slot::COUNT + b: the slots that go before slot b at k. By slot: the job's ticket, whether its close is held. Then the opening order.
#[derive(Clone, Copy)]
pub struct Tables<'a> {
    pub tickets: &'a [u16; Slot::COUNT],
    pub held: u32,
    pub order: &'a [u8; Slot::COUNT],
    pub named: &'a [u32; Database::COUNT],
    pub asked: &'a [u32; Database::COUNT],
    pub released: &'a [u32; Database::COUNT],
    pub confirmed: &'a [u32; Database::COUNT],
    pub dependencies: &'a [u32; STEPS],
}
