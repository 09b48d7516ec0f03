// One answer as 80 bytes.
ghost use Rattle.std.specs.Prelude.{◌≡◌, ◌+◌, ◌≤◌, length};
ghost use Rattle.layout.specs.Put.{put};
ghost use Rattle.boundary.specs.Row.{row_size, number_bytes, row_of};

use crate::arrays::put_all;
use crate::bytes::{Number, low_half};
use record::answer::{Answer, Numbers};

fn put_numbers(n: Numbers, out: &mut [u8], at: usize)
    requires { at + 10 ≤ length out.old }
    ensures { out.new ≡ put out.old at (number_bytes n) }
{
    n.refusal.put(out, at);
    n.released.put(out, at + 1);
    low_half(n.closed).put(out, at + 2);
    n.ticket.put(out, at + 4);
    low_half(n.added).put(out, at + 6);
    low_half(n.moves).put(out, at + 8);
}

pub(crate) fn put_row(answer: &Answer, out: &mut [u8], at: usize)
    requires { at + row_size ≤ length out.old }
    ensures { out.new ≡ put out.old at (row_of answer.now.numbers answer.now.tickets) }
{
    put_numbers(answer.numbers, out, at);
    out[at + 10..at + 16].fill(0);
    put_all(&answer.tickets, out, at + 16);
}
