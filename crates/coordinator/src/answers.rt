// What each call answers that is not refused, and the state left.
use crate::Coordinator;
use numbers::Ticket;
use refusals::Refusal;

// The job's ticket, how many dependencies the opening search added, and its moves.
#[derive(Clone, Copy, Debug, PartialEq, Eq)]
pub struct Opened {
    pub ticket: Ticket,
    pub added: u32,
    pub moves: u32,
}

// The step goes now, or waits.
#[derive(Clone, Copy, Debug, PartialEq, Eq)]
pub enum Asked {
    Released,
    Held,
}

// How many jobs were closed, and their tickets in order, with zeros after them: there is no heap for a Vec.
#[derive(Clone, Copy, Debug, PartialEq, Eq)]
pub struct Closed {
    pub count: u32,
    pub tickets: [u16; Coordinator::JOBS],
}

// A call's answer or why it was refused, and the state left: a refusal leaves the one handed in.
// Each of the four calls by value makes one from the call in place. One function for the four, given that call as a closure, would need a contract over any closure, longer than their three lines each.
#[derive(Clone, Copy, Debug, PartialEq, Eq)]
pub struct After<A> {
    pub answer: Result<A, Refusal>,
    pub state: Coordinator,
}
