// Why a call is refused, with document 01's numbers.
ghost use Rattle.std.specs.Prelude.{◌≡◌};
ghost use Rattle.refusals.specs.Number.{number};

#[derive(Clone, Copy, Debug, PartialEq, Eq)]
pub enum Refusal {
    // The mask names no database.
    NamesNone = 1,
    // All slots are taken.
    Full = 2,
    // No open job holds the ticket.
    NoJob = 3,
    // The database number is over 15.
    NoDatabase = 4,
    // The job does not name that database.
    NotNamed = 5,
    // The step was asked before.
    AskedBefore = 6,
    // The step isn't released, or is confirmed already.
    Settled = 7,
    // Some step of the job isn't confirmed.
    Unfinished = 8,
    // The job's close is held already.
    CloseHeld = 9,
    // The state isn't sound.
    Unsound = 10,
}

impl From<Refusal> for u8 {
    ghost from_gives = { λ refusal n. n ≡ number refusal };

    fn from(refusal: Refusal) -> u8 {
        refusal as u8
    }
}
