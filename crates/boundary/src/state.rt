// A state as 2,406 bytes.
ghost use Rattle.std.specs.Prelude.{◌≡◌, length};
ghost use Rattle.boundary.specs.State.{state_size, encoded, decoded};

use crate::arrays::{get_all, put_all};
use crate::bytes::Number;
use coordinator::Coordinator;
use numbers::NumberMaker;

// Lent and inlined, so that no call makes room for another copy of the state.
#[inline(always)]
pub(crate) fn encode(s: &Coordinator, out: &mut [u8])
    requires { length out.old ≡ state_size }
    ensures { out.new ≡ encoded s.now }
{
    put_all(&s.tickets, out, 0);
    s.held.put(out, 64);
    put_all(&s.order, out, 68);
    put_all(&s.named, out, 100);
    put_all(&s.asked, out, 164);
    put_all(&s.released, out, 228);
    put_all(&s.confirmed, out, 292);
    put_all(&s.dependencies, out, 356);
    s.maker.next.put(out, 2404);
}

pub(crate) fn decode(b: &[u8]) -> Coordinator
    requires { length b.now ≡ state_size }
    ensures { result ≡ decoded b.now }
{
    Coordinator {
        tickets: get_all(b, 0),
        held: u32::get(b, 64),
        order: get_all(b, 68),
        named: get_all(b, 100),
        asked: get_all(b, 164),
        released: get_all(b, 228),
        confirmed: get_all(b, 292),
        dependencies: get_all(b, 356),
        maker: NumberMaker {
            next: u16::get(b, 2404),
        },
    }
}
