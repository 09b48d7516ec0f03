#![tactic(auto)]
// A record of document 01, played as the call that it is.
pub mod answer;
pub mod request;
pub mod tested;

ghost use Rattle.record.specs.Request.{call, requested};
ghost use Rattle.record.specs.Tested.{answer_tested, Plays};

use answer::{Answer, Numbers};
use coordinator::Coordinator;
use request::{Request, UnknownKind};

impl Request {
    // Plays the call in place, given whether the state is sound: a flag, as the four calls take it. `Tested` holds it with its state.
    // Inlined up to the loop that plays records, so that no answer is copied from call to call.
    #[inline(always)]
    pub fn play(self, sound: bool, state: &mut Coordinator) -> Answer
        ensures { Plays (answer_tested sound state.old (Some (call self))) result state.new }
    {
        match self {
            Request::Open(mask) => Answer::from(Numbers::from(state.open_tested(sound, mask))),
            Request::Ask(ticket, database) => {
                Answer::from(Numbers::from(state.ask_tested(sound, ticket, database)))
            }
            Request::Confirm(ticket, database) => {
                Answer::from(Numbers::from(state.confirm_tested(sound, ticket, database)))
            }
            Request::Close(ticket) => Answer::from(state.close_tested(sound, ticket)),
        }
    }
}

// Plays a record in place, given whether the state is sound. What is no call changes nothing.
#[inline(always)]
pub fn play(sound: bool, state: &mut Coordinator, asked: Result<Request, UnknownKind>) -> Answer
    ensures { Plays (answer_tested sound state.old (requested asked)) result state.new }
{
    match asked {
        Ok(request) => request.play(sound, state),
        Err(unknown) => Answer::from(Numbers::from(unknown)),
    }
}
