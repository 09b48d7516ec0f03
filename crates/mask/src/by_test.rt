// A set told by a test of its members.
ghost use Rattle.std.specs.Prelude.{◌≡◌, ℕ, ◌<◌, Bool};
ghost use Rattle.loops.specs.Sum.{tally};
ghost use Rattle.mask.specs.Members.{gather};

// No branch: all slots are tested, and each answer is put in its place.
pub fn gathered<F: Fn(usize) -> bool>(test: F) -> u32
    requires { (j : ℕ) → j < 32 → F.pre test j }
    ensures { (p : ℕ → Bool) → ((j : ℕ) (b : Bool) → j < 32 → F.post test j b → b ≡ p j) → result ≡ gather 32 (λ j. tally (p j)) }
{
    let mut found = 0;
    for j in 0..32 {
        found |= u32::from(test(j)) << j;
    }
    found
}
