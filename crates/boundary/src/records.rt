// What records answer, each in a row, and the state they leave.
ghost use Rattle.std.specs.Prelude.{◌≡◌, ◌*◌, ◌/◌, length};
ghost use Rattle.boundary.specs.Row.{row_size};
ghost use Rattle.boundary.specs.Records.{state_after, rows};

use crate::ROW_SIZE;
use crate::row::put_row;
use record::request::Request;
use record::tested::Tested;

// Plays whole records in place, and writes a row for each. `lines` has a loop of its own: a line begins where the one before it ended, and what they share is `Tested`.
pub(crate) fn play_all(tested: &mut Tested, records: &[u8], out: &mut [u8])
    requires { length out.old ≡ row_size * (length records.now / 4) }
    ensures { (out.new ≡ rows tested.old.state records.now (length records.now / 4)) × (tested.new.state ≡ state_after tested.old.state records.now (length records.now / 4)) }
{
    let (whole, _) = records.as_chunks::<4>();
    for (i, bytes) in whole.iter().enumerate() {
        let answer = tested.play(Request::try_from(*bytes));
        put_row(&answer, out, ROW_SIZE * i);
    }
}
