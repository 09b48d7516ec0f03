// The opening order: where a slot stands in it, and the order without that place.
ghost use Rattle.std.specs.Prelude.{not, ◌≡◌, ◌+◌, ◌<◌, eqb, ltb, length};
ghost use Rattle.loops.specs.Sum.{tally};
ghost use Rattle.mask.specs.Member.{lowest};
ghost use Rattle.mask.specs.Members.{gather};
ghost use Rattle.coordinator.specs.Limits.{jobs};
ghost use Rattle.coordinator.specs.Views.{entry};
ghost use Rattle.coordinator.specs.Change.{moved_up};

use crate::Coordinator;
use mask::Set;
use numbers::Slot;

// Where slot j stands. No branch: all places are compared, and the lowest of those found is taken. JOBS where it stands nowhere, as `removed` has it: then none moves up.
pub(crate) fn place(order: &[u8; Coordinator::JOBS], j: Slot) -> usize
    ensures { result ≡ lowest jobs (gather jobs (λ i. tally (eqb (entry order.now i) j.0))) }
{
    let places = mask::gathered(|i| order[i] == j.0);
    places.lowest() as usize
}

// What comes to stand at place i, which the closure below knows to be one, when those after p move up; beyond the last place stands 0, as `moved_up` has it. By get and unwrap_or a close took half as long again (tried).
fn next(order: &[u8; Coordinator::JOBS], p: usize, i: usize) -> u8
    requires { (i < jobs) × (length order.now ≡ jobs) }
    ensures { result ≡ entry order.now (i + tally (not (ltb i p))) }
{
    if i < p {
        return order[i];
    }
    if i + 1 < Coordinator::JOBS {
        return order[i + 1];
    }
    0
}

// The places after p move up by one, and the last becomes zero. Made anew: copy_within in place took a twentieth longer a close (tried).
pub(crate) fn moved_up(order: [u8; Coordinator::JOBS], p: usize) -> [u8; Coordinator::JOBS]
    ensures { result ≡ moved_up p order }
{
    std::array::from_fn(|i| next(&order, p, i))
}
