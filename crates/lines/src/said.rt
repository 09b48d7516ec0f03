// The numbers of a record's line after its index.
ghost use Rattle.std.specs.Prelude.{◌≡◌};
ghost use Rattle.record.specs.Request.{requested};
ghost use Rattle.lines.specs.Said.{said_of};

use record::answer::Numbers;
use record::request::{Request, UnknownKind};

// The refusal is a number and no `Refusal`: document 01 has 11 and 12 for what is no call. `put_line` writes it, so it derives nothing to print.
#[derive(Clone, Copy)]
pub(crate) struct Said {
    pub refusal: u8,
    pub first: u32,
    pub second: u32,
}

// What is said of bytes at the end that are no whole record.
pub(crate) const LEFT_OVER: Said = Said {
    refusal: 12,
    first: 0,
    second: 0,
};

// What a record says of its answer.
pub(crate) fn tell(asked: Result<Request, UnknownKind>, n: Numbers) -> Said
    ensures { result ≡ said_of (requested asked) n }
{
    let (first, second) = match asked {
        Ok(Request::Open(_)) => (u32::from(n.ticket), n.moves),
        Ok(Request::Ask(_, _)) => (u32::from(n.released), 0),
        Ok(Request::Confirm(_, _)) => (u32::from(n.released), u32::from(n.ticket)),
        Ok(Request::Close(_)) => (n.closed, 0),
        Err(_) => (0, 0),
    };
    Said {
        refusal: n.refusal,
        first,
        second,
    }
}
