// A state and what its test says of it. A call leaves a state as sound as it was, so one test serves many records.
ghost use Rattle.std.specs.Prelude.{◌≡◌};
ghost use Rattle.coordinator.specs.Test.{sound as is_sound};
ghost use Rattle.coordinator.specs.Shape.{Shape};

use crate::answer::Answer;
use crate::play;
use crate::request::{Request, UnknownKind};
use coordinator::Coordinator;

#[derive(Clone, Copy)]
pub struct Tested {
    pub state: Coordinator,
    pub sound: bool,
    ghost is_told: { sound ≡ is_sound state },
    ghost has_shape: { Shape state },
}

impl Tested {
    ghost use Rattle.record.specs.Answer.{answer};
    ghost use Rattle.record.specs.Request.{requested};
    ghost use Rattle.record.specs.Tested.{Plays};

    // Inlined, so that the state is copied once less.
    #[inline(always)]
    pub fn new(state: Coordinator) -> Tested
        ensures { result.state ≡ state }
    {
        let sound = state.is_sound();
        Tested { state, sound }
    }

    // Plays a record in place. What is no call changes nothing.
    #[inline(always)]
    pub fn play(&mut self, asked: Result<Request, UnknownKind>) -> Answer
        ensures { Plays (answer self.old.state (requested asked)) result self.new.state }
    {
        play(self.sound, &mut self.state, asked)
    }
}
