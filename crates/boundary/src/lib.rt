#![tactic(auto)]
// The library for C: numbers and byte slices. A state is 2,406 bytes, an answer 80. Wrong lengths are refused by 10, and nothing is written.
mod arrays;
mod bytes;
mod records;
mod row;
mod state;

ghost use Rattle.std.specs.Prelude.{◌≡◌, [], Some};
ghost use Rattle.coordinator.specs.Call.{open_job, ask_step, confirm_step, close_job};
ghost use Rattle.record.specs.Request.{call};
ghost use Rattle.boundary.specs.Outcome.{records_played, called, started, moves_at_most};

use coordinator::Coordinator;
use numbers::{Database, Ticket};
use record::request::Request;
use record::tested::Tested;
use records::play_all;
use row::put_row;
use state::{decode, encode};

const STATE_SIZE: usize = 2406;

const ROW_SIZE: usize = 80;

// C gets a number, 0 where something was written: host/unkenlaterne.h has both.
const WRONG_LENGTH: u8 = 10;

// Plays whole records from the state, and writes a row for each to the answers, and the state left over the one given.
#[unsafe(no_mangle)]
pub extern "C" fn play_records(state: &mut [u8], records: &[u8], answers: &mut [u8]) -> u8
    ensures { record { code = result; state = state.new; answers = answers.new } ≡ records_played state.old records.now answers.old }
{
    if state.len() != STATE_SIZE {
        return WRONG_LENGTH;
    }
    if records.len() % 4 != 0 {
        return WRONG_LENGTH;
    }
    if answers.len() % ROW_SIZE != 0 {
        return WRONG_LENGTH;
    }
    if answers.len() / ROW_SIZE != records.len() / 4 {
        return WRONG_LENGTH;
    }
    let mut tested = Tested::new(decode(state));
    play_all(&mut tested, records, answers);
    encode(&tested.state, state);
    0
}

// Writes a fresh start with that first candidate.
#[unsafe(no_mangle)]
pub extern "C" fn fresh_state(state: &mut [u8], first: u16) -> u8
    ensures { record { code = result; state = state.new; answers = [] } ≡ started first state.old }
{
    if state.len() != STATE_SIZE {
        return WRONG_LENGTH;
    }
    encode(&Coordinator::fresh(Ticket(first)), state);
    0
}

// One call from the state, its row written to the answer.
fn call(state: &mut [u8], asked: Request, answer: &mut [u8]) -> u8
    ensures { record { code = result; state = state.new; answers = answer.new } ≡ called (Some (call asked)) state.old answer.old }
{
    if state.len() != STATE_SIZE {
        return WRONG_LENGTH;
    }
    if answer.len() != ROW_SIZE {
        return WRONG_LENGTH;
    }
    let mut tested = Tested::new(decode(state));
    let row = tested.play(Ok(asked));
    put_row(&row, answer, 0);
    encode(&tested.state, state);
    0
}

// C has a name and plain numbers for each of the four calls.
#[unsafe(no_mangle)]
pub extern "C" fn open_job(state: &mut [u8], mask: u16, answer: &mut [u8]) -> u8
    ensures { record { code = result; state = state.new; answers = answer.new } ≡ called (Some (open_job mask)) state.old answer.old }
{
    call(state, Request::Open(mask), answer)
}

#[unsafe(no_mangle)]
pub extern "C" fn ask_step(state: &mut [u8], ticket: u16, database: u8, answer: &mut [u8]) -> u8
    ensures { record { code = result; state = state.new; answers = answer.new } ≡ called (Some (ask_step ticket database)) state.old answer.old }
{
    let asked = Request::Ask(Ticket(ticket), Database(database));
    call(state, asked, answer)
}

#[unsafe(no_mangle)]
pub extern "C" fn confirm_step(state: &mut [u8], ticket: u16, database: u8, answer: &mut [u8]) -> u8
    ensures { record { code = result; state = state.new; answers = answer.new } ≡ called (Some (confirm_step ticket database)) state.old answer.old }
{
    let asked = Request::Confirm(Ticket(ticket), Database(database));
    call(state, asked, answer)
}

#[unsafe(no_mangle)]
pub extern "C" fn close_job(state: &mut [u8], ticket: u16, answer: &mut [u8]) -> u8
    ensures { record { code = result; state = state.new; answers = answer.new } ≡ called (Some (close_job ticket)) state.old answer.old }
{
    call(state, Request::Close(Ticket(ticket)), answer)
}

// How many moves the next opening can take at most. C has no Option: of a wrong length it is the largest number.
#[unsafe(no_mangle)]
pub extern "C" fn most_moves(state: &[u8]) -> u32
    ensures { result ≡ moves_at_most state.now }
{
    if state.len() != STATE_SIZE {
        return 4294967295;
    }
    decode(state).most_moves()
}
