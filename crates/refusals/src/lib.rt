#![tactic(auto)]
// Refusals, by the rows of document 01's table: the first that applies, if one does. What a row asks is told in plain values, as `slot_rows`, `step_rows` and `job_rows` have it; there is no state here.
mod refusal;

ghost use Rattle.std.specs.Prelude.{◌≡◌};
ghost use Rattle.mask.specs.Member.{size};
ghost use Rattle.tables.specs.Limits.{jobs};
ghost use Rattle.refusals.specs.Refusal.{slot_refusal, step_above, job_refusal};
ghost use Rattle.refusals.specs.Outcome.{outcome, outcome_or};

use mask::Set;
use numbers::{Database, Slot};
pub use refusal::Refusal;

// Of open.
#[tactic(auto, unfolding(crate::specs::Refusal::slot_refusal, crate::specs::Refusal::first_row))]
pub fn of_open(sound: bool, mask: u16, slots: u32) -> Result<(), Refusal>
    ensures { result ≡ outcome (slot_refusal sound mask (size jobs slots)) }
{
    if !sound {
        return Err(Refusal::Unsound);
    }
    if mask == 0 {
        return Err(Refusal::NamesNone);
    }
    if slots.size() as usize == Slot::COUNT {
        return Err(Refusal::Full);
    }
    Ok(())
}

// Of ask and confirm. `found` are the slots that hold the ticket, `names` says whether the job names database k; the last row is the call's own.
// What the own row refuses with is a value of any type that has one for each refusal, as u8 has its number.
#[tactic(auto, unfolding(crate::specs::Refusal::step_above, crate::specs::Refusal::first_row))]
pub fn of_step<E: From<Refusal> + Drop>(
    sound: bool,
    found: u32,
    k: Database,
    names: bool,
    applies: bool,
    own: E,
) -> Result<(), E>
    ensures { (f : Refusal → E) → ((r : Refusal) (e : E) → E.from_gives r e → e ≡ f r) → result ≡ outcome_or f (step_above sound found k.0 names) applies own }
{
    if !sound {
        return Err(E::from(Refusal::Unsound));
    }
    if found == 0 {
        return Err(E::from(Refusal::NoJob));
    }
    if k.0 as usize >= Database::COUNT {
        return Err(E::from(Refusal::NoDatabase));
    }
    if !names {
        return Err(E::from(Refusal::NotNamed));
    }
    if applies {
        return Err(own);
    }
    Ok(())
}

// Of close. `confirmed` says whether every step of the job is, `held` whether its close is.
#[tactic(auto, unfolding(crate::specs::Refusal::job_refusal, crate::specs::Refusal::first_row))]
pub fn of_close(sound: bool, found: u32, confirmed: bool, held: bool) -> Result<(), Refusal>
    ensures { result ≡ outcome (job_refusal sound found confirmed held) }
{
    if !sound {
        return Err(Refusal::Unsound);
    }
    if found == 0 {
        return Err(Refusal::NoJob);
    }
    if !confirmed {
        return Err(Refusal::Unfinished);
    }
    if held {
        return Err(Refusal::CloseHeld);
    }
    Ok(())
}
