// How much the sets of a table hold.
ghost use Rattle.std.specs.Prelude.{◌≡◌, ◌≤◌, ◌*◌, get_or};
ghost use Rattle.loops.specs.Sum.{sum};
ghost use Rattle.mask.specs.Member.{size};
ghost use Rattle.search.specs.Limits.{jobs, databases};

use mask::Set;
use numbers::Database;

// The slots in the sets of all databases, each counted once for each database.
pub fn count_all(sets: &[u32; Database::COUNT]) -> u32
    ensures all { result ≡ sum databases (λ u. size jobs (get_or sets.now u 0)) }
    ensures most { result ≤ jobs * databases }
{
    sets.iter().map(|set| set.size()).sum()
}
