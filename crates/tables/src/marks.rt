// The marks of the steps at one database.
ghost use Rattle.std.specs.Prelude.{◌≡◌};
ghost use Rattle.tables.specs.Test.{marks_sound, steps_sound};

use crate::rows::Steps;
use mask::Set;
use numbers::Slot;

// The slots whose job names the database, and those whose step there is asked, released, confirmed.
#[derive(Clone, Copy)]
pub(crate) struct Marks {
    pub(crate) named: u32,
    pub(crate) asked: u32,
    pub(crate) released: u32,
    pub(crate) confirmed: u32,
}

impl Marks {
    // Each mark of a step lies within the one before it, and a held close has its step confirmed.
    #[tactic(auto, using(crate::proofs::Testing::marks_are))]
    fn are_sound(self, held: u32) -> bool
        ensures { result ≡ marks_sound self.named self.asked self.released self.confirmed held }
    {
        self.asked.less(self.named)
            | self.released.less(self.asked)
            | self.confirmed.less(self.released)
            | (held & self.named).less(self.confirmed)
            == 0
    }

    // The marks, and the dependencies at the database.
    #[tactic(auto, unfolding(crate::specs::Test::steps_sound))]
    pub(crate) fn steps_sound(self, held: u32, rows: &[u32; Slot::COUNT]) -> bool
        ensures { result ≡ steps_sound self.named self.asked self.released self.confirmed held rows.now }
    {
        let steps = Steps {
            named: self.named,
            waiting: self.named.less(self.released),
            under_way: self.released.less(self.confirmed),
        };
        self.are_sound(held) && steps.rows_sound(rows)
    }
}
