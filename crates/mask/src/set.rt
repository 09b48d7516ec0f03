// A set of slots or of databases in one word: number k is a member where bit k is 1. Any input is answered: a number beyond the width is no member, is not put in, and taking it out changes nothing.
ghost use Rattle.std.specs.Prelude.{◌≡◌, ℕ, ◌<◌, ◌≤◌, ◌^◌, ◌%◌};
ghost use Rattle.std.proofs.Common.{rules};
ghost use Rattle.mask.specs.Member.{holds, joined, excluding, less, lowest, size};

use crate::members::Members;

pub trait Set: Copy {
    // The word as a number, and how many digits it has.
    ghost number: { Self → ℕ };

    ghost WIDTH: { ℕ };

    const WIDTH: u8;

    fn word(self) -> u64
        ensures value { result ≡ number self }
        ensures fits { result < 2 ^ WIDTH };

    // The set of the low digits of a word.
    fn of_word(word: u64) -> Self
        ensures { number result ≡ word % 2 ^ WIDTH };

    // The lowest member, or the width of an empty set. Each impl counts in its own width: over the 64 digits of a word it took two instructions more.
    fn lowest(self) -> u32
        ensures { result ≡ lowest WIDTH (number self) };

    #[tactic(auto, using(crate::proofs::Holds::holds_beyond))]
    final fn holds(self, k: u8) -> bool
        ensures { result ≡ holds (number self) k }
    {
        let m = self.word();
        if k < Self::WIDTH {
            (m >> k) % 2 == 1
        } else {
            false
        }
    }

    final fn with_member(self, k: u8) -> Self
        ensures { number result ≡ joined WIDTH (number self) k }
    {
        let m = self.word();
        if k < Self::WIDTH {
            Self::of_word(m | 1 << k)
        } else {
            self
        }
    }

    final fn without_member(self, k: u8) -> Self
        ensures { number result ≡ excluding (number self) k }
    {
        let m = self.word();
        if k >= Self::WIDTH {
            self
        } else {
            Self::of_word(m & !(1 << k))
        }
    }

    #[tactic(auto, using(crate::proofs::Size::ones_in_lem))]
    final fn size(self) -> u32
        ensures { result ≡ size WIDTH (number self) }
    {
        self.word().count_ones()
    }

    // All but the lowest member. Of an empty set, the word less 1 wraps around and the `&` drops it: no branch is needed.
    #[tactic(auto, using(crate::proofs::Narrow::narrow_rest))]
    final fn rest(self) -> Self
        ensures { number result ≡ excluding (number self) (lowest WIDTH (number self)) }
    {
        let m = self.word();
        Self::of_word(m & m.wrapping_sub(1))
    }

    // The members that are not in the other set.
    final fn less(self, other: Self) -> Self
        ensures { number result ≡ less WIDTH (number self) (number other) }
    {
        Self::of_word(self.word() & !other.word())
    }

    // The members, from the lowest to the highest.
    final fn members(self) -> Members<Self>
        ensures { result.left ≡ self }
    {
        Members { left: self }
    }

    // A word has at most 64 digits.
    ghost narrow: { WIDTH ≤ 64 };
}

impl Set for u16 {
    ghost number = { λ m. m };

    ghost WIDTH = { 16 };

    const WIDTH: u8 = 16;

    fn word(self) -> u64 {
        u64::from(self)
    }

    fn of_word(word: u64) -> u16 {
        (word % 0x1_0000) as u16
    }

    fn lowest(self) -> u32 {
        u16::trailing_zeros(self)
    }

    ghost narrow = { Prim.search rules };
}

impl Set for u32 {
    ghost number = { λ m. m };

    ghost WIDTH = { 32 };

    const WIDTH: u8 = 32;

    fn word(self) -> u64 {
        self.into()
    }

    fn of_word(word: u64) -> u32 {
        (word % 0x1_0000_0000) as u32
    }

    fn lowest(self) -> u32 {
        u32::trailing_zeros(self)
    }

    ghost narrow = { Prim.search rules };
}
