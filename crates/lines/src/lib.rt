#![tactic(auto)]
// Plays records of four bytes and writes a line of four decimal numbers for each.
mod said;
mod text;

ghost use Rattle.std.specs.Prelude.{◌≡◌, ◌/◌, ◌^◌, ◌<◌, length, IfSome};
ghost use Rattle.layout.specs.Put.{Counts};
ghost use Rattle.lines.specs.Line.{longest};
ghost use Rattle.lines.specs.Playing.{Playing, all, playing};

use coordinator::Coordinator;
use record::request::Request;
use record::tested::Tested;
use said::{LEFT_OVER, tell};
use text::put_line;

// The bytes that a line takes at most.
const LONGEST: usize = 47;

// What playing some records tells: the next index, and how many bytes were written to the buffer lent, as std's `Read` tells it.
#[derive(Clone, Copy, Debug, PartialEq, Eq)]
pub struct Played {
    pub index: u64,
    pub wrote: usize,
}

// Plays all the records, and writes a line for each. A line begins where the one before it ended, unlike a row of the library: what the two loops share is `Tested`.
fn play_all(state: &mut Coordinator, start: u64, records: &[u8], out: &mut [u8]) -> Played
    requires { (start < 2 ^ 63) × (length records.now / 4 < length out.old / longest) }
    ensures { Counts result.wrote out.new × (◌≡◌ {A = Playing} (record { played = Some result; state = state.new; out = out.new }) (all state.old start records.now out.old)) }
{
    let mut tested = Tested::new(*state);
    let (whole, rest) = records.as_chunks::<4>();
    let mut wrote = 0;
    for (i, bytes) in whole.iter().enumerate() {
        let asked = Request::try_from(*bytes);
        let answer = tested.play(asked);
        wrote = put_line(start + i as u64, tell(asked, answer.numbers), out, wrote);
    }
    *state = tested.state;
    let mut index = start + whole.len() as u64;
    if !rest.is_empty() {
        wrote = put_line(index, LEFT_OVER, out, wrote);
        index += 1;
    }
    Played { index, wrote }
}

// Plays the records that the bytes hold, from this state and index on, and writes their lines from the start of out.
// Where the index could run over, or out could be too short, nothing is played and nothing written.
pub fn play(state: &mut Coordinator, index: u64, records: &[u8], out: &mut [u8]) -> Option<Played>
    ensures { IfSome result (λ p. Counts p.wrote out.new) × (record { played = result; state = state.new; out = out.new } ≡ playing state.old index records.now out.old) }
{
    if index < 1 << 63 && records.len() / 4 < out.len() / LONGEST {
        return Some(play_all(state, index, records, out));
    }
    None
}
