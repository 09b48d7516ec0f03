// What firmware plans its time by.
ghost use Rattle.std.specs.Prelude.{◌≡◌};
ghost use Rattle.coordinator.specs.Bound.{most_moves};

use crate::Coordinator;

impl Coordinator {
    // How many moves the next opening can take at most: three for each database that an open job names.
    pub fn most_moves(&self) -> u32
        ensures { result ≡ most_moves self.now }
    {
        3 * search::count_all(&self.named)
    }
}
