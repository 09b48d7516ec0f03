// The members of a set, from the lowest to the highest.
ghost use Rattle.std.specs.Iterator.{at_most};
ghost use Rattle.mask.specs.Members.{Takes};

use crate::set::Set;

// What is left of a set that is walked.
#[derive(Drop)]
pub struct Members<S> {
    pub(crate) left: S,
}

impl<S: Set> Iterator for Members<S> {
    type Item = u8;

    ghost next_gives = { λ s k t. Takes S.WIDTH (S.number s.left) k (S.number t.left) };

    // Each turn takes a member out, so the set as a number falls.
    ghost remaining = { λ s. at_most (S.number s.left) };

    fn next(&mut self) -> Option<u8> {
        if self.left.word() == 0 {
            return None;
        }
        let k = self.left.lowest() as u8;
        self.left = self.left.rest();
        Some(k)
    }
}
