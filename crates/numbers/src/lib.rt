#![tactic(auto)]
// The report keeps transaction nodes and site nodes apart. Here each kind of number is a type of its own, so a ticket cannot index a slot.

pub mod maker;

// A job's number, given out when it is opened. A closed job's number may come back, so a ticket tells nothing about age, and has no order.
#[derive(Clone, Copy, Debug, PartialEq, Eq)]
pub struct Ticket(pub u16);

// A job's place in the state.
#[derive(Clone, Copy, Debug, PartialEq, Eq, PartialOrd, Ord)]
pub struct Slot(pub u8);

impl Slot {
    // How many jobs may be open at a time.
    pub const COUNT: usize = 32;
}

// A database's number.
#[derive(Clone, Copy, Debug, PartialEq, Eq, PartialOrd, Ord)]
pub struct Database(pub u8);

impl Database {
    pub const COUNT: usize = 16;
}

// A step for each job and database.
pub const STEPS: usize = Slot::COUNT * Database::COUNT;

// What gives out tickets: the candidate that the next one starts from.
#[derive(Clone, Copy, Debug, PartialEq, Eq)]
pub struct NumberMaker {
    pub next: u16,
}
