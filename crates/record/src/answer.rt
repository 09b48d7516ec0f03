// What a record answers, in document 01's numbers.
ghost use Rattle.std.specs.Prelude.{◌≡◌};
ghost use Rattle.coordinator.specs.Answer.{refused, open_values, ask_values, confirm_values, close_values};
ghost use Rattle.record.specs.Row.{no_tickets, tickets_of};
ghost use Rattle.record.specs.Answer.{numbers_of};

use crate::request::UnknownKind;
use coordinator::Coordinator;
use coordinator::answers::{Asked, Closed, Opened};
use numbers::Ticket;
use refusals::Refusal;

// The numbers of an answer, zeros where a call has nothing to say. No Option and no bool: it is the row that C reads, told by `numbers_of`.
#[derive(Clone, Copy, Debug, PartialEq, Eq, Default)]
pub struct Numbers {
    pub refusal: u8,
    pub released: u8,
    pub closed: u32,
    pub ticket: u16,
    pub added: u32,
    pub moves: u32,
}

// The numbers, and the tickets closed in order with zeros after them: the row has room for all, since there is no heap.
#[derive(Clone, Copy, Debug, PartialEq, Eq)]
pub struct Answer {
    pub numbers: Numbers,
    pub tickets: [u16; Coordinator::JOBS],
}

impl Numbers {
    fn refused(n: u8) -> Numbers
        ensures { result ≡ numbers_of (refused n) }
    {
        Numbers {
            refusal: n,
            ..Numbers::default()
        }
    }
}

impl From<UnknownKind> for Numbers {
    ghost from_gives = { λ _ numbers. numbers ≡ numbers_of (refused 11) };

    fn from(unknown: UnknownKind) -> Numbers {
        Numbers::refused(u8::from(unknown))
    }
}

impl From<Result<Opened, Refusal>> for Numbers {
    ghost from_gives = { λ answer numbers. numbers ≡ numbers_of (open_values answer) };

    fn from(answer: Result<Opened, Refusal>) -> Numbers {
        match answer {
            Ok(opened) => Numbers {
                ticket: opened.ticket.0,
                added: opened.added,
                moves: opened.moves,
                ..Numbers::default()
            },
            Err(refusal) => Numbers::refused(u8::from(refusal)),
        }
    }
}

impl From<Result<Asked, Refusal>> for Numbers {
    ghost from_gives = { λ answer numbers. numbers ≡ numbers_of (ask_values answer) };

    fn from(answer: Result<Asked, Refusal>) -> Numbers {
        match answer {
            Ok(Asked::Released) => Numbers {
                released: 1,
                ..Numbers::default()
            },
            Ok(Asked::Held) => Numbers::default(),
            Err(refusal) => Numbers::refused(u8::from(refusal)),
        }
    }
}

impl From<Result<Option<Ticket>, Refusal>> for Numbers {
    ghost from_gives = { λ answer numbers. numbers ≡ numbers_of (confirm_values answer) };

    fn from(answer: Result<Option<Ticket>, Refusal>) -> Numbers {
        match answer {
            Ok(Some(ticket)) => Numbers {
                released: 1,
                ticket: ticket.0,
                ..Numbers::default()
            },
            Ok(None) => Numbers::default(),
            Err(refusal) => Numbers::refused(u8::from(refusal)),
        }
    }
}

// A call that closes nothing has no tickets.
impl From<Numbers> for Answer {
    ghost from_gives = { λ numbers row. row ≡ record { numbers = numbers; tickets = no_tickets } };

    fn from(numbers: Numbers) -> Answer {
        Answer {
            numbers,
            tickets: [0u16; Coordinator::JOBS],
        }
    }
}

impl From<Result<Option<Closed>, Refusal>> for Answer {
    ghost from_gives = { λ answer row. row ≡ record { numbers = numbers_of (close_values answer); tickets = tickets_of answer } };

    fn from(answer: Result<Option<Closed>, Refusal>) -> Answer {
        match answer {
            Ok(Some(closed)) => {
                let numbers = Numbers {
                    closed: closed.count,
                    ..Numbers::default()
                };
                let tickets = closed.tickets;
                Answer { numbers, tickets }
            }
            Ok(None) => Answer::from(Numbers::default()),
            Err(refusal) => Answer::from(Numbers::refused(u8::from(refusal))),
        }
    }
}
