// Who is open.
ghost use Rattle.std.specs.Prelude.{◌≡◌};
ghost use Rattle.tables.specs.Tables.{open_in};

use numbers::Database;

// The open slots: those that some database is named by.
#[tactic(auto, using(mask::proofs::Union::fold_union), unfolding(crate::specs::Tables::open_in))]
pub fn open_slots(named: &[u32; Database::COUNT]) -> u32
    ensures { result ≡ open_in named.now }
{
    named.iter().fold(0, |open, here| open | *here)
}
