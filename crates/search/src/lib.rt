#![tactic(auto)]
// The opening search of document 01. Visiting a job leads to its databases, and visiting a database leads to jobs again.
mod count;

ghost use Rattle.std.specs.Prelude.{◌≡◌, ◌<◌};
ghost use Rattle.mask.specs.Member.{holds, excluding};
ghost use Rattle.search.specs.Limits.{jobs, databases};
ghost use Rattle.search.specs.Search.{sought};
ghost use Rattle.search.specs.Visit.{put_ahead, all_ahead, turned, due, BeforeJob, JobVisited, BeforeDatabase, DatabaseVisited, Others};

pub use count::count_all;
use mask::Set;
use numbers::{Database, STEPS, Slot};

// By database, the slots with a found dependency to the new job; and the moves. `sought` has them so.
#[derive(Clone, Copy, Debug, PartialEq, Eq)]
pub struct Sought {
    pub found: [u32; Database::COUNT],
    pub moves: u32,
}

// The opening search for the new job in slot n. Beyond the last slot there is no job, and nothing is found.
pub fn search(named: &[u32; Database::COUNT], dependencies: &[u32; STEPS], n: Slot) -> Sought
    ensures { result ≡ sought named.now dependencies.now n.0 }
{
    let mut walker = Walker {
        named,
        dependencies,
        job: n,
        ahead: [0; Slot::COUNT],
        reached: [0; Database::COUNT],
        found: [0; Database::COUNT],
    };
    if (n.0 as usize) < Slot::COUNT {
        walker.put_all_ahead();
        walker.visit_job(n, None);
    }
    Sought {
        found: walker.found,
        moves: walker.moves(),
    }
}

// What the search works on. The arrays hold sets, of slots but for `ahead`.
#[derive(Drop)]
struct Walker<'a> {
    // At u: the slots that name database u.
    named: &'a [u32; Database::COUNT],
    // At u * Slot::COUNT + w: those that go before slot w at u.
    dependencies: &'a [u32; STEPS],
    // The slot of the new job.
    job: Slot,
    // At v: the databases of slot v that no visit of v looks through yet. Once is enough, so no other visit of v does it again.
    ahead: [u16; Slot::COUNT],
    // At u: those reached through u.
    reached: [u32; Database::COUNT],
    // At u: those with a found dependency to the new job at u.
    found: [u32; Database::COUNT],
}

impl Walker<'_> {
    // Each database is ahead of the slots that name it.
    #[tactic(auto, unfolding(crate::specs::Visit::all_ahead, loops::specs::Loop::over))]
    fn put_all_ahead(&mut self)
        ensures { self.new ≡ record self.old { ahead = all_ahead self.old.named.now self.old.ahead } }
    {
        for (u, slots) in self.named.iter().enumerate() {
            put_ahead(&mut self.ahead, *slots, u);
        }
    }

    // From slot v, reached through database `via`, to the others of those ahead; the new job is reached through none.
    // They are taken off before the first of them is visited: what comes to v again meanwhile leaves them to this visit.
    #[cycle(visit_database_visit_job)]
    fn visit_job(&mut self, v: Slot, via: Option<Database>)
        requires { BeforeJob self.old v.0 via }
        ensures { JobVisited self.old v.0 via self.new }
    {
        let j = v.0 as usize;
        let all = self.ahead[j];
        let taken = without(all, via);
        self.ahead[j] = all.less(taken);
        for u in taken.members() {
            self.visit_database(v, Database(u));
        }
    }

    // From database u, come to from slot v which names it, to the other slots that name it. A visit reaches more of them: these are taken off what is left.
    #[cycle(visit_database_visit_job)]
    #[tactic(auto, using(crate::proofs::Trying::lowest_out))]
    fn visit_database(&mut self, v: Slot, u: Database)
        requires { BeforeDatabase self.old v.0 u.0 }
        ensures { DatabaseVisited self.old v.0 u.0 self.new }
    {
        let k = u.0 as usize;
        let mut left = others(self.named[k], self.reached[k], v);
        // The set changes while it is walked, so this is no `for` over its members.
        while left != 0 {
            let w = Slot(left.lowest() as u8);
            left = left.rest();
            let at = k * Slot::COUNT + w.0 as usize;
            if has(self.dependencies[at], v) {
                continue;
            }
            if w == self.job {
                self.found[k] |= 1 << v.0;
            } else {
                self.reached[k] |= 1 << w.0;
                self.visit_job(w, Some(u));
                left = others(left, self.reached[k], v);
            }
        }
    }

    // A forward move and a return for each slot that is reached, a closing move for each that is found. Counted here, they cost the visits nothing.
    fn moves(&self) -> u32
        ensures { result ≡ due self.now }
    {
        2 * count_all(&self.reached) + count_all(&self.found)
    }
}

// Database u is ahead of each of the slots. As `lead_to` of the coordinator, which is lent a part of its table: one for both would be longer than the two. By a shift, as all that is put in here: `with_member` would test again what is known.
#[tactic(auto, using(mask::proofs::Walking::left_done), unfolding(crate::specs::Visit::put_ahead))]
fn put_ahead(ahead: &mut [u16; Slot::COUNT], slots: u32, u: usize)
    requires { u < databases }
    ensures { ahead.new ≡ put_ahead slots u ahead.old }
{
    for v in slots.members() {
        ahead[v as usize] |= 1 << u;
    }
}

// The databases of `all` but `via`: a walk doesn't turn round.
#[tactic(auto, using(mask::proofs::Change::excluding_beyond))]
fn without(all: u16, via: Option<Database>) -> u16
    ensures { result ≡ excluding all (turned via) }
{
    via.map_or(all, |u| all.without_member(u.0))
}

// Whether v is one of the slots. `Set::holds` was tried in its place: it tests v again, and the search of a full graph took a fifth longer.
fn has(slots: u32, v: Slot) -> bool
    requires { v.0 < jobs }
    ensures { result ≡ holds slots v.0 }
{
    (slots >> v.0) % 2 == 1
}

// The slots of `all` but v that are not reached: those that are would be passed over one by one. That v is a slot, here and in `has`, `Standing` says.
#[tactic(auto, using(crate::proofs::Trying::others_are))]
fn others(all: u32, reached: u32, v: Slot) -> u32
    requires { v.0 < jobs }
    ensures { Others all reached v.0 result }
{
    all & !(1 << v.0) & !reached
}
