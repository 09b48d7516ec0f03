// The numbers go round while one job stays open.
use coordinator::Coordinator;
use coordinator::answers::After;
use numbers::{Database, Ticket};
use refusals::Refusal;

// The state goes on from what a call left.
fn goes_on<A>(state: &mut Coordinator, after: After<A>) -> Result<A, Refusal> {
    *state = after.state;
    after.answer
}

// Open, ask, confirm and close on {1}: the ticket, where the close closes that job alone.
fn round(state: &mut Coordinator) -> Result<Option<Ticket>, Refusal> {
    let opening = state.open(2);
    let ticket = goes_on(state, opening)?.ticket;
    let asking = state.ask(ticket, Database(1));
    goes_on(state, asking)?;
    let confirming = state.confirm(ticket, Database(1));
    goes_on(state, confirming)?;
    let closing = state.close(ticket);
    let closed = goes_on(state, closing)?;
    Ok(closed.filter(|closed| closed.count == 1).map(|_| ticket))
}

// In how many of 65,535 rounds the ticket was the round's number.
pub(crate) fn as_told(state: &mut Coordinator) -> u32 {
    let mut count = 0u32;
    for i in 0..65535u16 {
        if let Ok(Some(ticket)) = round(state)
            && ticket == Ticket(i)
        {
            count = count.saturating_add(1);
        }
    }
    count
}
