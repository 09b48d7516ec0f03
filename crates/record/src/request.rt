// Which call a record is.
ghost use Rattle.std.specs.Prelude.{◌≡◌};
ghost use Rattle.record.specs.Request.{requested, read};

use numbers::{Database, Ticket};

// A call as a record asks for it.
#[derive(Clone, Copy, Debug, PartialEq, Eq)]
pub enum Request {
    // A job at the databases of a mask.
    Open(u16),
    Ask(Ticket, Database),
    Confirm(Ticket, Database),
    Close(Ticket),
}

// The record's kind is no call: document 01 refuses it by 11.
#[derive(Clone, Copy, Debug, PartialEq, Eq)]
pub struct UnknownKind;

impl From<UnknownKind> for u8 {
    ghost from_gives = { λ _ n. n ≡ 11 };

    fn from(_: UnknownKind) -> u8 {
        11
    }
}

// The kind, the database, and the mask or the ticket, low byte first.
impl TryFrom<[u8; 4]> for Request {
    type Error = UnknownKind;

    ghost try_from_gives = { λ bytes result. requested result ≡ read bytes };

    #[tactic(auto, unfolding(crate::specs::Record::call_of))]
    fn try_from(bytes: [u8; 4]) -> Result<Request, UnknownKind> {
        let [kind, database, low, high] = bytes;
        let value = u16::from_le_bytes([low, high]);
        match kind {
            1 => Ok(Request::Open(value)),
            2 => Ok(Request::Ask(Ticket(value), Database(database))),
            3 => Ok(Request::Confirm(Ticket(value), Database(database))),
            4 => Ok(Request::Close(Ticket(value))),
            _ => Err(UnknownKind),
        }
    }
}
