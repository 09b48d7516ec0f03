// Whether a state is sound.
ghost use Rattle.std.specs.Prelude.{◌≡◌};
ghost use Rattle.coordinator.specs.Test.{sound};

use crate::Coordinator;
use tables::Tables;

impl Coordinator {
    // Whether the state is sound: a call refuses one that isn't.
    #[tactic(auto, unfolding(crate::specs::Test::sound))]
    pub fn is_sound(&self) -> bool
        ensures { result ≡ sound self.now }
    {
        let tables = Tables {
            tickets: &self.tickets,
            held: self.held,
            order: &self.order,
            named: &self.named,
            asked: &self.asked,
            released: &self.released,
            confirmed: &self.confirmed,
            dependencies: &self.dependencies,
        };
        tables.are_sound()
    }
}
